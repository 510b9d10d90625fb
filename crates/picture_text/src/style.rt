//! The colours of a picture, light and dark.

/// The style of a picture. On paper it is light.
pub(crate) const STYLE: &str = "\
text { font: 12px ui-sans-serif, system-ui, 'Segoe UI', Helvetica, Arial, sans-serif; fill: #1c1e21; }
.mono { font-family: ui-monospace, 'DejaVu Sans Mono', Menlo, Consolas, monospace; font-size: 11px; white-space: pre; }
.title { font-size: 16px; font-weight: 600; }
.head { font-weight: 600; text-anchor: middle; }
.quiet { fill: #5c6370; }
.label { font-size: 11px; }
.end { text-anchor: end; }
.denied, .refused { fill: #b3261e; }
.answered { fill: #1b6e3c; }
.chosen { fill: #8a5a00; }
.paper { fill: #ffffff; }
.band { fill: #eef3fb; }
.band.odd { fill: #f8f5ec; }
.rule { stroke: #d9dce1; }
.lane { stroke: #8b919c; stroke-width: 1.5; }
.down { stroke: #b9bdc6; stroke-width: 9; }
.box { fill: #ffffff; stroke: #8b919c; }
.flight { fill: none; stroke: #2f5fb3; stroke-width: 1.3; }
.tip, .dot { fill: #2f5fb3; }
.asks { stroke: #1b6e3c; }
.tip.asks, .dot.asks { fill: #1b6e3c; stroke: none; }
.moves { stroke: #8a5a00; }
.tip.moves, .dot.moves { fill: #8a5a00; stroke: none; }
.again { stroke-dasharray: 5 3; }
.cross, .bar { fill: none; stroke: #b3261e; stroke-width: 1.8; }
.leads { fill: #1c1e21; }
.follows { fill: #ffffff; stroke: #1c1e21; stroke-width: 1.3; }
.restart { fill: none; stroke: #b3261e; stroke-width: 1.8; }
.mark { fill: #1c1e21; }
.mark.denied { fill: #b3261e; }
@media screen and (prefers-color-scheme: dark) {
text { fill: #e4e6ea; }
.quiet { fill: #a3a9b5; }
.denied, .refused { fill: #ff8a80; }
.answered { fill: #7ed79b; }
.chosen { fill: #e3b25c; }
.paper { fill: #17191d; }
.band { fill: #1e2530; }
.band.odd { fill: #26231b; }
.rule { stroke: #343841; }
.lane { stroke: #7b828f; }
.down { stroke: #4a4f5a; }
.box { fill: #17191d; stroke: #7b828f; }
.flight { stroke: #8fb4f5; }
.tip, .dot { fill: #8fb4f5; }
.asks { stroke: #7ed79b; }
.tip.asks, .dot.asks { fill: #7ed79b; }
.moves { stroke: #e3b25c; }
.tip.moves, .dot.moves { fill: #e3b25c; }
.cross, .bar, .restart { stroke: #ff8a80; }
.leads, .mark { fill: #e4e6ea; }
.mark.denied { fill: #ff8a80; }
.follows { fill: #17191d; stroke: #e4e6ea; }
}
";
