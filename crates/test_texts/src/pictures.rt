//! Tests of pictures as SVG.

use history_scene::{Bar, Colour, Scene};
use scene_svg::SceneSvg;
use std::alloc::Global;
use std::test::Fail;

fn text(alloc: Global, words: &str) -> Result<String, Fail> {
    let mut text = String::new(alloc);
    text.push_str(words)?;
    Ok(text)
}

fn scene(alloc: Global) -> Result<Scene, Fail> {
    let bar = Bar {
        id: 0,
        actor: 3,
        lane: 0,
        from: 0,
        to: None,
        call: text(alloc, "a<b & \"a call that is long\"")?,
        reply: None,
        stand: None,
        colour: Colour::Plain,
    };
    let mut bars = Vec::new(alloc);
    bars.push(bar)?;
    Ok(Scene {
        events: 1,
        actors: vec![in alloc; 3]?,
        bars,
        order: Vec::new(alloc),
        reason: Some(text(alloc, "x > y\n")?),
    })
}

#[test]
fn escapes_and_cuts_texts(rt: HostRuntime) -> Result<(), Fail> {
    let scene = scene(rt.alloc())?;
    let svg = format!(in rt.alloc(); "{}", SceneSvg(&scene))?;
    let svg = svg.as_str();
    assert!(rt;
        svg.contains(
            "<title>operation 0 of actor 3: a&lt;b &amp; &quot;a call that is long&quot; has not ended</title>"
        )
    );
    assert!(rt; svg.contains(">a&lt;b &amp; &quot;a ca..</text>"));
    assert!(rt; svg.contains(">Not legal: x &gt; y?</text>"));
    assert!(rt; svg.ends_with("</svg>\n"));
    Ok(())
}
