//! The texts that are the same in each document: colours, and what they mean.

/// How the shapes are painted, on a light and on a dark ground. The colours differ in lightness too, so that
/// people who confuse red and green tell them apart.
pub const STYLE: &str = "<style>
svg{font-family:'DejaVu Sans Mono',Menlo,Consolas,monospace;font-size:11px}
text{fill:#1b1f24}
.ground{fill:#ffffff}
.head{font-size:15px;font-weight:bold}
.time{fill:#7d848d;font-size:9px;text-anchor:middle}
.mark{stroke:#eceff2}
.lane{stroke:#d5dae0}
.actor,.number{font-weight:bold}
.late{fill:#8a2f8f;font-style:italic}
.order{fill:none;stroke:#59636e;stroke-width:1.5;stroke-linejoin:round}
.plain path{fill:#c7e0f4;stroke:#0072b2}
.copy path{fill:#fce98c;stroke:#a87f00}
.refused path{fill:#dcdcdc;stroke:#8f8f8f}
.refused text{fill:#5c5c5c}
.wrong path{fill:#c62828;fill-opacity:.9;stroke:#5c0a0a;stroke-width:2.5}
.wrong text{fill:#ffffff}
.reason{fill:#b71c1c;font-weight:bold}
g path{fill-opacity:.7}
@media (prefers-color-scheme:dark){
text{fill:#e8eaed}
.ground{fill:#15181c}
.time{fill:#8b939c}
.mark{stroke:#23282e}
.lane{stroke:#39414a}
.late{fill:#e29ae6}
.order{stroke:#aab3bd}
.plain path{fill:#123a57;stroke:#56b4e9}
.copy path{fill:#574808;stroke:#f0e442}
.refused path{fill:#333639;stroke:#8f8f8f}
.refused text{fill:#b4b4b4}
.wrong path{fill:#c62828;stroke:#ffb4a9}
.reason{fill:#ff8a80}
}
</style>
";

/// What colours and marks mean, as a list that begins at the origin.
pub const LEGEND: &str =
    "<g class=\"plain\"><path d=\"M0 0h26v12h-26z\"/></g><text x=\"36\" y=\"10\">an operation, from the event that begins it to the one that ends it; open at its right: it hasn't ended</text>
<g class=\"copy\"><path d=\"M0 20h26v12h-26z\"/></g><text x=\"36\" y=\"30\">a snapshot or a freeze</text>
<g class=\"refused\"><path d=\"M0 40h26v12h-26z\"/></g><text x=\"36\" y=\"50\">refused for want of slots</text>
<g class=\"wrong\"><path d=\"M0 60h26v12h-26z\"/></g><text x=\"36\" y=\"70\">named by the first reason why the order isn't legal</text>
<path class=\"order\" d=\"M0 86h26\"/><text x=\"36\" y=\"90\">the order; at a bar's head stands its place there, counted from 0, and in its title its operation's id</text>
<text class=\"late\" y=\"110\">late</text><text x=\"36\" y=\"110\">stands before a snapshot, a freeze or a clear that was answered before it ended</text>
";
