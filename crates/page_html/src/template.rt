// The text of the page between its places, and its looks.

pub(crate) const BEFORE_TITLE: &[u8] = br##"<!DOCTYPE html>
<html lang="en">
<head>
<meta charset="utf-8">
<meta http-equiv="Content-Security-Policy" content="default-src 'none'; style-src 'unsafe-inline'">
<meta name="viewport" content="width=device-width, initial-scale=1">
<title>"##;

pub(crate) const BEFORE_FOOT: &[u8] = br##"</title>
<style>
@page { size: A4; margin: 12mm 12mm 16mm;
  @bottom-left { content: ""##;

pub(crate) const BEFORE_DIGITS: &[u8] = br##"";
    width: 62%; text-align: left; font: 8pt sans-serif; color: #333; vertical-align: top; padding-top: 3mm; }
  @bottom-right { content: ""##;

pub(crate) const BEFORE_HEADING: &[u8] = br##"sheet " counter(page) " of " counter(pages);
    width: 38%; text-align: right; font: 8pt sans-serif; color: #333; vertical-align: top; padding-top: 3mm; } }
:root { color-scheme: only light; }
* { box-sizing: border-box; }
body { margin: 0 auto; max-width: 194mm; padding: 6mm 4mm; color: #111; background: #fff;
  font: 9.2pt/1.35 system-ui, "Segoe UI", "Helvetica Neue", Arial, "Liberation Sans", "Noto Sans", "DejaVu Sans", sans-serif; }
h1 { font-size: 15pt; line-height: 1.2; margin: 0 0 1mm; overflow-wrap: anywhere; }
h2 { font-size: 10.5pt; margin: 3.6mm 0 1mm; border-bottom: 0.3mm solid #999; break-after: avoid; }
p, ul { margin: 0.8mm 0; }
header p { overflow-wrap: anywhere; }
ul { padding: 0; list-style: none; font-size: 10.5pt; }
ul.two { columns: 2; column-gap: 5mm; font-size: 8pt; }
li { overflow-wrap: anywhere; break-inside: avoid; }
.typed span { margin-right: 5mm; }
.note, .key { font-size: 8pt; color: #333; }
.whole { break-inside: avoid; }
p { orphans: 3; widows: 3; }
.sign { display: grid; grid-template-columns: 1fr 1fr; column-gap: 8mm; }
.sign p { margin: 11mm 0 0; border-top: 0.3mm solid #444; font-size: 8pt; color: #333; }
.key { overflow-wrap: anywhere; }
.key span { margin-right: 3.5mm; }
.key .line { white-space: nowrap; }
table { border-collapse: collapse; font-size: 8pt; line-height: 1.2; font-variant-numeric: tabular-nums; }
thead { display: table-header-group; }
tr { break-inside: avoid; }
th, td { padding: 0.45mm 0.7mm; border-bottom: 0.15mm solid #bbb; text-align: right; font-weight: normal;
  white-space: nowrap; vertical-align: top; }
thead th { color: #333; text-align: center; vertical-align: bottom; border-bottom: 0.3mm solid #666; }
thead th.turned { padding: 1mm 0 0.4mm; }
.turned span { display: inline-block; writing-mode: vertical-rl; transform: rotate(180deg); text-align: left; }
tbody th, thead th.name { text-align: left; white-space: normal; overflow-wrap: break-word; min-width: 17mm; max-width: 34mm; }
tbody th { font-weight: 600; }
.scroll { overflow-x: auto; }
#animals { width: 100%; }
#areas, #growth, #sampling { margin-top: 3mm; }
#overlaps { max-width: 100%; }
#overlaps td[data-other] { white-space: normal; min-width: 10mm; }
td.n, .key b, figcaption b { font-weight: 700; }
#sums { width: 100%; }
#sums th, #sums td { text-align: left; white-space: normal; }
.sum, code { font-family: ui-monospace, "DejaVu Sans Mono", "Liberation Mono", Consolas, monospace; overflow-wrap: anywhere; }
.sum { font-size: 8pt; }
code { font-size: 8.5pt; }
.text { font-size: 8.2pt; overflow-wrap: anywhere; }
.limits { border-left: 1mm solid #666; padding-left: 2mm; }
svg { display: block; width: 100%; height: auto; font-size: 10.5px; fill: #222; background: #fff; forced-color-adjust: none;
  overflow: visible; }
svg.map { break-inside: avoid; margin-top: 1mm; }
.maps svg.map + svg.map { display: inline-block; width: 49.5%; }
path, circle { stroke: none; fill: none; }
.grid path { stroke: #ddd; stroke-width: 0.7; }
.rim { stroke: #666; stroke-width: 0.8; }
.axes { stroke: #666; stroke-width: 0.7; }
.tick { stroke: #e2e2e2; stroke-width: 0.6; }
.aid { stroke: #555; stroke-width: 0.8; stroke-dasharray: 4 2.5; }
.bar { stroke: #222; stroke-width: 1.4; }
.arrow { stroke: #222; stroke-width: 1; fill: #222; }
.boundary { stroke: #222; stroke-width: 1.6; stroke-dasharray: 9 2.5 2 2.5; fill: #7a9a5a; fill-opacity: 0.1; fill-rule: evenodd; }
.curve { stroke: currentColor; stroke-width: 1.5; stroke-linejoin: round; }
.since { fill: currentColor; stroke: #fff; stroke-width: 0.8; }
.dots { stroke: currentColor; stroke-width: 2; stroke-linecap: round; stroke-opacity: 0.55; }
.flat { stroke: currentColor; stroke-width: 3; stroke-linecap: round; stroke-linejoin: round; }
.l0, .l1, .l2, .l3, .l4, .l5, .l6, .l7 { stroke: currentColor; fill: currentColor; stroke-width: 1.2; stroke-linejoin: round; }
.l0 { stroke-dasharray: 5 3; fill-opacity: 0; }
.l1 { stroke-width: 2; fill-opacity: 0.06; }
.l2 { stroke-width: 1; fill-opacity: 0.22; }
.l3 { stroke-dasharray: 1.5 2.5; stroke-width: 1.6; fill-opacity: 0.15; }
.l4 { stroke-dasharray: 8 3; stroke-width: 1.6; fill-opacity: 0.1; }
.l5 { stroke-dasharray: 8 2 1.5 2; fill-opacity: 0.1; }
.l6 { stroke-dasharray: 3 1.5; stroke-width: 0.9; fill-opacity: 0.1; }
.l7 { stroke-width: 0.6; fill-opacity: 0.1; }
.dense .l0, .dense .l2 { stroke-width: 0.6; }
.dense .l1 { stroke-width: 1; }
.dense .dots { stroke-width: 1; }
.dense .number { stroke-width: 2; }
.leader { stroke: #666; stroke-width: 0.6; }
.number { fill: currentColor; font-weight: 700; paint-order: stroke; stroke: #fff; stroke-width: 3; stroke-linejoin: round; }
.swatch { display: inline-block; width: 9mm; height: 3mm; vertical-align: -0.4mm; margin-right: 1mm; }
.c0 { color: #0072b2; } .c1 { color: #c44e00; } .c2 { color: #00805e; } .c3 { color: #a8437a; } .c4 { color: #7a6200; }
.c5 { color: #4b3fa0; } .c6 { color: #4d4d4d; }
figure { display: inline-block; margin: 0 0 1mm; vertical-align: top; break-inside: avoid; padding-right: 2mm; }
figcaption { font-size: 8pt; overflow-wrap: anywhere; line-height: 1.2; }
.of1 { width: 100%; } .of2 { width: 50%; } .of3 { width: 33.33%; } .of4 { width: 25%; } .of6 { width: 20%; } .of10 { width: 12.5%; }
.of6 figcaption, .of10 figcaption { white-space: nowrap; }
.figures { font-size: 0; }
.hidden { position: absolute; width: 1px; height: 1px; overflow: hidden; clip-path: inset(50%); white-space: nowrap; }
@media print { body { max-width: none; padding: 0; } .scroll { overflow: visible; } #animals td, #growth td, #sampling td { white-space: normal; } }
@media screen and (max-width: 600px) {
  ul.two { columns: 1; }
  tbody th, thead th.name { position: sticky; left: 0; background: #fff; max-width: 24mm; }
  #animals .ha, #animals td[data-field^="hectares_"] { position: sticky; right: 0; background: #fff; width: 12mm; min-width: 12mm; }
  #animals .ha:nth-last-child(2), #animals td[data-field^="hectares_"]:nth-last-child(2) { right: 12mm; }
  #animals .ha:nth-last-child(3), #animals td[data-field^="hectares_"]:nth-last-child(3) { right: 24mm; }
  #animals .ha:nth-last-child(n + 4), #animals td[data-field^="hectares_"]:nth-last-child(n + 4) { position: static; }
  #animals:has(.ha) tr:first-child > th:last-child { position: sticky; right: 0; background: #fff; }
}
</style>
</head>
<body>
<header>
<h1>"##;

pub(crate) const BEFORE_TYPED: &[u8] = br##"</h1>
<p class="typed">"##;

pub(crate) const BEFORE_PERIOD: &[u8] = br##"</p>
<p><span data-field="period">"##;

pub(crate) const BEFORE_MADE: &[u8] = br##"</span>. "##;

pub(crate) const BEFORE_SENTENCES: &[u8] = br##"</p>
</header>
<section>
<h2>Ranges</h2>
"##;

pub(crate) const BEFORE_ANIMALS: &[u8] = br##"
</section>
<section>
<h2>Animals</h2>
<div class="scroll">
"##;

pub(crate) const BEFORE_NOTES: &[u8] = br##"
</div>
<p class="note">"##;

pub(crate) const BEFORE_MAPS: &[u8] = br##"</p>
</section>
<section>
<h2>Map</h2>
<div class="maps">
"##;

pub(crate) const BEFORE_KEY: &[u8] = br##"
</div>
<p class="key">"##;

pub(crate) const BEFORE_GROUND: &[u8] = br##"</p>
<p class="note">"##;

pub(crate) const BEFORE_SIZE: &[u8] = br##"</p>
</section>
<section class=""##;

pub(crate) const BEFORE_CURVES: &[u8] = br##"">
<h2>Area after each fix</h2>
<div class="figures">
"##;

pub(crate) const BEFORE_OVERLAP: &[u8] = br##"
</div>
<p class="note">Across the number of the fix, upwards the area of the polygon of all fixes up to it, each drawing to its own scale. Dashed: 95 % of the final area; the dot is the fix from which on the area stayed above that line.</p>
</section>
<section>
<h2>Overlaps</h2>
<p>"##;

pub(crate) const BEFORE_OVERLAPS: &[u8] = br##"</p>
<div class="scroll">
"##;

pub(crate) const BEFORE_TENTH: &[u8] = br##"
</div>
</section>
<section>
<h2>Words</h2>
<p class="text"><b>Fix</b>: a place of an animal with its time. <b>Minimum convex polygon</b>: of all shapes around some fixes the smallest without a dent, as a string drawn tight around pins. <b>Per cent</b> of such a polygon, as 95 %: how many of the fixes are kept, not how likely the animal is there. <b>Grid</b>: the flat map with eastings and northings in metres, on which areas are measured. <b>Ellipsoid</b>: the smooth round shape of the Earth, without heights, to which a flat grid is never quite true. <b>Hectare</b> (ha): 10,000 square metres, as a square of 100 metres a side. <b>UTC</b>: the time that all countries share, without zones and summer time."##;

// What a decimetre is, on pages whose unit it is.
pub(crate) const TENTH: &[u8] = b" <b>Decimetre</b>: a tenth of a metre.";

pub(crate) const BEFORE_METHOD: &[u8] = br##"</p>
</section>
<section>
<h2>Method</h2>
<p class="text">"##;

pub(crate) const BEFORE_CHECKSUMS: &[u8] = br##"</p>
<p class="text">Mohr, C. O. 1947. Table of equivalent populations of North American small mammals. The American Midland Naturalist 37: 223&#8211;249. Harris, S., W. J. Cresswell, P. G. Forde, W. J. Trewhella, T. Woollard and S. Wray. 1990. Home-range analysis using radio-tracking data &#8211; a review of problems and techniques particularly as applied to the study of mammals. Mammal Review 20: 97&#8211;123.</p>
</section>
<section>
<h2>Proof and its limits</h2>
<p class="limits">Checked by machine proof: report.txt, from the files of fixes. Compared by tests: this page, its tables and drawings, the way from the export. Not checked: the export itself.</p>
<p class="limits">A minimum convex polygon grows with each outlier and with the time for which an animal was followed, and says nothing of how the animal used the land within it.</p>
</section>
<section>
<h2>Checksums</h2>
<table id="sums">
<caption class="hidden">Checksums</caption>
<tbody>
"##;

pub(crate) const BEFORE_VERIFY: &[u8] = br##"
</tbody></table>
<p>"##;

pub(crate) const BEHIND_VERIFY: &[u8] = br##"</p>
</section>
<section class="whole">
<h2>Signature</h2>
<div class="sign">
<p>Place</p>
<p>Day</p>
<p>Name</p>
<p>Office</p>
<p>Signature</p>
</div>
</section>
</body>
</html>
"##;
