//! Drawing a history.

ghost use Rattle.std.specs.Prelude.{◌≡◌, ◌≢◌, ◌<◌, ◌^◌, ℕ, IfOk, OnOk, IfErr, IfSome};
ghost use Rattle.std.specs.Io.KnownBytes.{Keeps, IsAtEnd};
ghost use Rattle.counted_io.specs.Counts.{inner_of, failures};
ghost use Rattle.history_commands.specs.Verdicts.{IsVerdict, HasLineFault, IsOfHistory};
ghost use Rattle.history_commands.specs.Written.{AppendsSuch, AppendsPartOf};
ghost use Rattle.history_commands.specs.Pictures.{IsSceneOf, IsPicture, ShowsVerdict};

use crate::faults::Fault;
use counted_io::{Counted, read_all, write_all};
use history_scene::{Scene, has_each_operation, scene_of};
use history_text::read_history;
use scene_svg::SceneSvg;
use std::alloc::Global;
use std::io::{Read, Write};

/// The scene of the text's history and order.
fn scene_in(alloc: Global, text: &[u8]) -> Result<Scene, Fault>
    ensures scene { IfOk result (IsSceneOf text.now) }
    ensures faults { IfErr result (IsOfHistory text.now) }
{
    has_each_operation();
    let given = read_history(alloc, text)?;
    let events = given.events.as_slice();
    let order = given.order.as_slice();
    match scene_of(alloc, events, order, given.hash) {
        Ok(scene) => Ok(scene),
        Err(_) => Err(Fault::Memory),
    }
}

/// Reads a history to its end, and writes a picture of it and its order, an SVG document. It answers whether
/// the order is legal for the events.
pub fn draw_history<R: Read, W: Write>(
    alloc: Global,
    input: &mut Counted<R>,
    output: &mut Counted<W>,
) -> Result<bool, Fault>
    requires input_count { failures input.old < 2 ^ 63 }
    requires output_count { failures output.old < 2 ^ 63 }

    // The answer is right of what the reader had, which has no fault; and just its picture was written: whatever the
    // reader had, one that tells this answer.
    ensures verdict { IfOk result (λ legal. IfSome (R.remaining (inner_of input.old)) (λ text. IsVerdict text legal)) }
    ensures written { IfOk result (λ legal. IfSome (R.remaining (inner_of input.old)) (λ text.
        AppendsSuch (IsPicture text legal) (W.contents (inner_of output.old)) (W.contents (inner_of output.new)))) }
    ensures told { IfOk result (λ legal.
        AppendsSuch (ShowsVerdict legal) (W.contents (inner_of output.old)) (W.contents (inner_of output.new))) }
    ensures all_read { OnOk result (IsAtEnd (R.remaining (inner_of input.new))) }

    // What each fault tells.
    ensures line { (number : ℕ) (refusal : _) → result ≡ Err (Fault.Line number refusal)
        → IfSome (R.remaining (inner_of input.old)) (λ text. HasLineFault text number refusal) }
    ensures read { result ≡ Err Fault.Read → failures input.old < failures input.new }
    ensures write { result ≡ Err Fault.Write → failures output.old < failures output.new }
    ensures never_usage { result ≢ Err Fault.Usage }

    // Nothing was written before a fault but one of writing, and before that a beginning of the picture.
    ensures silent { IfErr result (λ fault. fault ≢ Fault.Write →
        Keeps (W.contents (inner_of output.old)) (W.contents (inner_of output.new))) }
    ensures part { result ≡ Err Fault.Write → IfSome (R.remaining (inner_of input.old)) (λ text.
        AppendsPartOf (λ bytes. (legal : _) × IsPicture text legal bytes)
        (W.contents (inner_of output.old)) (W.contents (inner_of output.new))) }
{
    let text = read_all(alloc, input)?;
    let scene = scene_in(alloc, text.as_slice())?;
    let picture = format!(in alloc; "{}", SceneSvg(&scene))?;
    write_all(output, picture.as_bytes())?;
    Ok(scene.reason.is_none())
}
