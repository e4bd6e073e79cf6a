//! Laws of the orders that explain calls.

ghost use Rattle.concurrent_map.specs.Laws.{ExportsAreOfTheFreeze, NoCountIsLost, ScansListOneMoment, TasksAreDoneOnce};

/// A law: an export is of the moment of its freeze. What is listed of a copy is what the map had where the copy was frozen.
pub fn exports_are_of_the_freeze()
    ensures { ExportsAreOfTheFreeze }
{}

/// A law: a listing in parts is of one moment. All parts together have each pair once that the map had where the copy was frozen.
pub fn scans_list_one_moment()
    ensures { ScansListOneMoment }
{}

/// A law: no count is lost. Where each call on a key adds one by `replace_if`, its number grows by as much as were answered yes.
pub fn no_count_is_lost()
    ensures { NoCountIsLost }
{}

/// A law: a task is done once. Of those that remove a key by `remove_if`, while nobody gives it a value, one at most is answered yes.
pub fn tasks_are_done_once()
    ensures { TasksAreDoneOnce }
{}
