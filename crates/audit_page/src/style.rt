//! The style of a page, in light, in dark and on paper.

pub(crate) const STYLE: &str =
    r#":root { color-scheme: light dark; --paper: #ffffff; --ink: #1c1e21; --quiet: #5c6370; --rule: #c9cdd4; --head: #eef0f3; --link: #1d4fa3; --all: #f8cfcb; --writes: #fde6cf; --reads: #dfeafa; }
@media screen and (prefers-color-scheme: dark) {
:root { --paper: #17191d; --ink: #e4e6ea; --quiet: #a3a9b5; --rule: #3d424d; --head: #23262c; --link: #9dbdf7; --all: #6b2a26; --writes: #5a3c18; --reads: #22375a; }
}
* { box-sizing: border-box; }
body { margin: 0; background: var(--paper); color: var(--ink); font: 16px/1.5 system-ui, "Segoe UI", Helvetica, Arial, sans-serif; }
main { padding: 1rem; max-width: 100%; }
h1 { font-size: 1.5rem; margin: 0 0 .5rem; }
h2 { font-size: 1.1rem; margin: 1.5rem 0 .25rem; }
a { color: var(--link); }
code, dt, td, #matrix th { font-family: ui-monospace, "DejaVu Sans Mono", Menlo, Consolas, monospace; font-size: .8125rem; }
li, dd, code, summary, .names { overflow-wrap: anywhere; }
ul { padding-left: 1.25rem; margin: .25rem 0; }
:focus-visible { outline: 3px solid var(--link); outline-offset: -3px; }
dl { display: grid; grid-template-columns: max-content 1fr; gap: 0 .75rem; margin: .25rem 0; }
dt { font-weight: 600; }
dd { margin: 0; }
.legend { display: block; }
.legend dt, .legend dd { display: inline; }
.legend dt::after { content: "\00a0"; }
.legend dd::after { content: " "; margin-right: .75rem; }
.more, .example { color: var(--quiet); font-size: .8125rem; }
#controls { display: flex; flex-wrap: wrap; gap: .5rem 1rem; align-items: center; margin: .75rem 0; }
#controls[hidden], #cell[hidden] { display: none; }
input, select, button { font: inherit; color: inherit; background: var(--paper); border: 1px solid var(--quiet); border-radius: 4px; padding: .2rem .4rem; max-width: 100%; }
#cell { border: 1px solid var(--link); border-radius: 4px; padding: .5rem .75rem; margin: .5rem 0; }
#cell h2 { margin: 0; overflow-wrap: anywhere; }
#scroll { overflow: auto; max-height: 85vh; border: 1px solid var(--rule); }
#matrix { border-collapse: separate; border-spacing: 0; table-layout: fixed; width: 1px; }
caption { text-align: left; padding: .25rem .5rem; font-weight: 600; white-space: nowrap; }
#matrix th, td { border-right: 1px solid var(--rule); border-bottom: 1px solid var(--rule); padding: .1rem .3rem; line-height: 1.4; }
thead th { position: sticky; top: 0; z-index: 1; width: 4.25rem; height: 11rem; background: var(--head); vertical-align: bottom; font-weight: 600; }
thead th > * { writing-mode: vertical-rl; transform: rotate(180deg); max-height: 10.5rem; overflow: hidden; text-overflow: ellipsis; white-space: nowrap; }
thead th:first-child { left: 0; z-index: 2; width: 17rem; text-align: left; }
thead th:first-child > * { writing-mode: horizontal-tb; transform: none; }
thead button { background: none; border: 0; padding: 0; font-size: .8125rem; cursor: pointer; }
tbody th { position: sticky; left: 0; background: var(--head); text-align: left; font-weight: 400; white-space: nowrap; overflow: hidden; text-overflow: ellipsis; }
td { text-align: center; color: var(--quiet); white-space: nowrap; cursor: pointer; }
td.a, td.w, td.r { color: var(--ink); }
td.a { background: var(--all); font-weight: 700; }
td.w { background: var(--writes); }
td.r { background: var(--reads); }
details { border-bottom: 1px solid var(--rule); padding: .3rem 0; }
summary { cursor: pointer; }
.only-paper { display: none; }
@media (max-width: 40rem) {
thead th:first-child { width: 8.5rem; }
.grants { padding-left: .75rem; }
}
@media print {
@page { margin: 15mm; }
body { font-size: 10pt; }
main { padding: 0; }
#controls, #cell, #scroll.wide { display: none; }
.only-paper { display: block; }
#scroll { overflow: visible; max-height: none; border: 0; }
thead th, tbody th, thead th:first-child { position: static; }
details::details-content { content-visibility: visible; block-size: auto; }
h2, summary { break-after: avoid; }
li, tr { break-inside: avoid; }
a { color: inherit; text-decoration: none; }
}
"#;
