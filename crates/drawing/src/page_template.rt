//! What a page has before the report: its head with the style, and its parts, which are still empty.

/// Up to the style of pictures, which pages have too.
pub(crate) const HEAD: &str = r##"<!doctype html>
<html lang="en">
<head>
<meta charset="utf-8">
<meta name="viewport" content="width=device-width, initial-scale=1">
<title>A run, step by step</title>
"##;

/// What pages look like beyond that, and their parts, up to the signs of the lanes.
pub(crate) const BODY: &str = r##"<style>
:root{color-scheme:light dark;--ink:#222;--quiet:#5d6670;--page:#fff;--soft:#f4f5f7;--line:#cfd5db;--cursor:#b00058}
@media (prefers-color-scheme:dark){
:root{--ink:#ddd;--quiet:#9aa3ad;--page:#14171a;--soft:#1d2126;--line:#3a424a;--cursor:#ff6fb0}
}
*{box-sizing:border-box}
body{margin:0;background:var(--page);color:var(--ink);font:14px/1.45 system-ui,sans-serif}
svg{display:block}
header{position:sticky;top:0;z-index:1;background:var(--page);border-bottom:1px solid var(--line);padding:8px 12px}
h1{font-size:15px;margin:8px 12px 0}
h2{font-size:13px;margin:0 0 4px;color:var(--quiet);font-weight:600}
nav{display:flex;flex-wrap:wrap;gap:6px}
button{font:inherit;color:inherit;background:var(--soft);border:1px solid var(--line);border-radius:5px;min-height:32px;padding:2px 9px;cursor:pointer}
button:disabled{color:var(--quiet);opacity:.5;cursor:default}
:focus-visible{outline:2px solid var(--cursor);outline-offset:1px}
#slider{width:100%;margin:6px 0 0;accent-color:var(--cursor)}
#say{margin:2px 0 0;min-height:2.9em}
#say b{font-variant-numeric:tabular-nums}
main{display:grid;grid-template-columns:minmax(0,3fr) minmax(0,2fr)}
section{padding:8px 12px;border-bottom:1px solid var(--line);min-width:0}
#lanes{grid-column:1/-1;padding:4px 0;max-height:46vh;overflow:auto}
#shape>div{overflow:auto;max-height:60vh}
#beside{border-left:1px solid var(--line)}
#beside section:last-child{border-bottom:0}
ol,ul{margin:0;padding:0;list-style:none}
li{padding:1px 0}
#order>ol,#pairs>ul{max-height:30vh;overflow:auto}
#pairs>ul{display:flex;flex-wrap:wrap;gap:2px 6px}
#pairs li,#words span{white-space:nowrap;font:12px ui-monospace,'DejaVu Sans Mono',Menlo,Consolas,monospace;background:var(--soft);border-radius:3px;padding:1px 5px}
#words p{display:flex;flex-wrap:wrap;gap:3px 6px;margin:0}
#order .now{font-weight:600}
.chip{display:inline-block;width:10px;height:10px;margin-right:5px}
.dim{color:var(--quiet)}
.cursor{stroke:var(--cursor);fill:none}
.veil{fill-opacity:.6}
.tint{fill-opacity:.22;stroke-width:2.5}
.dash{stroke-dasharray:3 2}
.ring{display:none;fill:none;stroke:var(--cursor);stroke-width:1.5}
.pointed .ring{display:inline}
.gone{opacity:.55}
.gone1{opacity:.35}
.gone2{opacity:.2}
#shape g{cursor:pointer}
kbd{font:12px ui-monospace,Menlo,Consolas,monospace;border:1px solid var(--line);border-radius:3px;padding:0 4px}
@media (max-width:700px){
main{grid-template-columns:minmax(0,1fr)}
#beside{border-left:0}
header,section{padding:6px 8px}
h1{margin:6px 8px 0}
#lanes{padding:4px 0}
#say{min-height:4.4em}
nav{gap:4px}
button{padding:2px 7px}
#shape>div{max-height:none}
}
</style>
</head>
<body>
<h1></h1>
<header>
<nav aria-label="Steps"></nav>
<input id="slider" type="range" min="0" value="0" aria-label="Turn">
<p id="say" aria-live="polite"></p>
</header>
<main>
<section id="lanes" aria-label="Lanes of the clients"></section>
<section id="shape"><h2></h2><div></div></section>
<div id="beside">
<section id="words"><h2></h2><p></p></section>
<section id="going"><h2>SCX-records in progress</h2><ul></ul></section>
<section id="pairs"><h2>The map so far</h2><ul></ul></section>
<section id="order"><h2>The legal order so far</h2><ol></ol></section>
</div>
</main>
<section class="dim"><kbd>←</kbd> <kbd>→</kbd> a step, <kbd>↑</kbd> <kbd>↓</kbd> to the end of a call, <kbd>Home</kbd>
<kbd>End</kbd>; <kbd>f</kbd> to the next freeze, <kbd>u</kbd> update, <kbd>a</kbd> abort, with <kbd>Shift</kbd> to the one
before; <kbd>n</kbd> <kbd>p</kbd> point at the next or previous node, <kbd>Esc</kbd> at that of the step. A hollow sign has
changed nothing; its colour is that of the client whose SCX-record the step is of. A node in a client's colour is frozen
for its SCX-record, a dashed one is retired, a faded one is no longer in the tree, a yellow one came with the newest
update.</section>
<svg width="0" height="0" style="position:absolute" aria-hidden="true">
"##;
