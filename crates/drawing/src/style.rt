//! How the elements of a picture look.

/// The colours, on a light page and on a dark one. Those of clients are seven that a colour-blind
/// person can distinguish.
pub(crate) const STYLE: &str = "<style>
text{font:10px ui-monospace,'DejaVu Sans Mono',Menlo,Consolas,monospace;fill:#222;stroke:none!important}
.head{font-size:15px;font-weight:bold}
.small{font-size:8px}
.middle{text-anchor:middle}
.quiet{fill:#666}
.page{fill:#fff}
.lane{fill:#f4f5f7}
.tick{stroke:#aab4be;fill:none}
.fill{stroke:#66727e;fill:none}
.bar{stroke:none;fill:#aab4be}
.edge{stroke:#7a8692;fill:none}
.node{stroke:#56616c;fill:#fff}
.new{stroke:#56616c;fill:#ffe08a}
.final{stroke:#56616c;fill:#d9dde1;stroke-dasharray:3 2}
.c0{fill:#0072b2;stroke:#0072b2}
.c1{fill:#d55e00;stroke:#d55e00}
.c2{fill:#009e73;stroke:#009e73}
.c3{fill:#c060a0;stroke:#c060a0}
.c4{fill:#b87f00;stroke:#b87f00}
.c5{fill:#3a9bd9;stroke:#3a9bd9}
.c6{fill:#000;stroke:#000}
.call{fill:#fff}
.open{stroke-dasharray:4 3}
.help{fill-opacity:.22;stroke:none}
.hollow{fill:#fff}
.dots{stroke-dasharray:1.5 3}
.thin{stroke-width:.6}
@media (prefers-color-scheme:dark){
text{fill:#ddd}
.quiet{fill:#9aa3ad}
.lane{fill:#1d2126}
.tick{stroke:#5b6570}
.fill{stroke:#98a3ae}
.bar{fill:#5b6570}
.edge{stroke:#8a96a2}
.node{stroke:#9aa6b2;fill:#14171a}
.new{stroke:#9aa6b2;fill:#6a5300}
.final{stroke:#9aa6b2;fill:#3a4149}
.c0{fill:#4ba3e3;stroke:#4ba3e3}
.c1{fill:#ff8a4a;stroke:#ff8a4a}
.c2{fill:#2fc79a;stroke:#2fc79a}
.c3{fill:#e79bcb;stroke:#e79bcb}
.c4{fill:#f2b632;stroke:#f2b632}
.c5{fill:#8fd0ff;stroke:#8fd0ff}
.c6{fill:#eee;stroke:#eee}
.page,.call,.hollow{fill:#14171a}
.help,.bar{stroke:none}
}
</style>
";

/// The signs, each around the spot where it is put, and the page.
pub(crate) const SIGNS: &str = "<defs>
<path id=\"freeze\" d=\"M-5 5L0-5 5 5Z\"/>
<path id=\"frozen\" d=\"M-4-4H4V4H-4Z\"/>
<path id=\"mark\" d=\"M-5-3L-3-5 0-2 3-5 5-3 2 0 5 3 3 5 0 2-3 5-5 3-2 0Z\"/>
<path id=\"update\" d=\"M-7 0L0-8 7 0 0 8Z\"/>
<circle id=\"commit\" r=\"4.5\"/>
<path id=\"abort\" d=\"M-6.5-2.5H6.5V2.5H-6.5Z\"/>
<circle id=\"idle\" r=\"1.5\"/>
<circle id=\"moment\" r=\"3\"/>
<path id=\"load\" d=\"M0-4V4\"/>
<path id=\"fill\" d=\"M0-7V7\"/>
</defs>
<rect class=\"page\" width=\"100%\" height=\"100%\"/>
";
