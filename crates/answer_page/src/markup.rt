//! The markup of a page, and nothing else: what a designer changes. In each template `$` stands for the next value, in the order
//! that its comment says. Texts are escaped, so they may stand between elements and in attributes within double quotes, but in no
//! script and no address; a colour is six hexadecimal digits, and a share a number of percent.

/// No values.
pub const PAGE_START: &str = r##"<!doctype html>
<html lang="en">
<head>
<meta charset="utf-8">
<meta name="viewport" content="width=device-width, initial-scale=1">
<meta name="color-scheme" content="light dark">
<title>Journeys</title>
<style>
:root { color-scheme: light dark; --ink: #1a1c20; --soft: #59606b; --line: #c9ced6; --back: #ffffff; --card: #f5f6f8; --accent: #1f5fbf }
@media (prefers-color-scheme: dark) {
  :root { --ink: #eceef2; --soft: #a5acb8; --line: #474d58; --back: #15171b; --card: #1f2228; --accent: #86b4ff }
}
* { box-sizing: border-box }
body { margin: 0 auto; max-width: 58rem; padding: 1rem; color: var(--ink); background: var(--back); font: 1rem/1.45 system-ui, sans-serif }
h1 { font-size: 1.5rem; margin: 0 0 .25rem }
h2 { font-size: 1.1rem; margin: 0 0 .6rem; font-weight: 600 }
a { color: var(--accent) }
bdi { overflow-wrap: break-word }
time { font-variant-numeric: tabular-nums; white-space: nowrap }
time small { color: var(--soft); margin-left: .3em }
time small:empty, .question:empty, .rest0 { display: none }
.question { margin: 0 0 1rem; color: var(--soft); font-family: ui-monospace, monospace; overflow-wrap: anywhere }
.journey { overflow-wrap: break-word; background: var(--card); border: 1px solid var(--line); border-radius: .5rem; padding: .9rem 1rem; margin: 1rem 0; break-inside: avoid }
.number { display: inline-block; min-width: 1.6em; margin-right: .3em; text-align: center; border: 1px solid currentColor; border-radius: 1em }
svg { display: block; width: 100%; overflow: visible; color: var(--ink) }
svg text { fill: currentColor; font-size: 13px; text-anchor: middle }
.chart { height: 15rem; margin: .5rem 0 1.25rem }
.chart .frame { fill: none; stroke: var(--line) }
.chart .mark circle { fill: var(--back); stroke: var(--accent); stroke-width: 2.5 }
.chart .mark text { font-weight: 600 }
.chart .mark .label { font-weight: 400; font-size: 12px }
.chart:has(.mark:nth-of-type(9)) .label { display: none }
.chart .axis { fill: var(--soft) }
.bar { height: 2.2rem; margin: 0 0 .6rem }
.bar .span { stroke: var(--soft); stroke-width: 1.5; stroke-dasharray: 1 4 }
.bar .walk { stroke: currentColor; stroke-width: 3; stroke-dasharray: 5 3 }
.bar .ride { stroke: currentColor; stroke-width: 1 }
.way { list-style: none; margin: 0 0 .8rem; padding: 0 }
.way li { padding: .2rem 0 .2rem .7rem; border-left: .3rem solid var(--line) }
.way .ride { border-left-color: var(--route) }
.way .walk, .way .wait { border-left-style: dashed; color: var(--soft) }
.line { display: inline-block; font-weight: 600; border: 1px solid currentColor; border-left: .5rem solid var(--route); border-radius: .2rem; padding: 0 .4em }
.trip { color: var(--soft); font-size: .85rem }
table { border-collapse: collapse; width: 100%; table-layout: fixed; font-size: .92rem }
th:nth-child(1) { width: 17% } th:nth-child(2) { width: 19% } th:nth-child(4) { width: 18% } th:nth-child(5) { width: 19% }
caption { text-align: left; font-weight: 600; padding-bottom: .2rem }
th, td { text-align: left; padding: .2rem .6rem .2rem 0; border-top: 1px solid var(--line); vertical-align: top; overflow-wrap: break-word }
th { font-weight: 500 }
thead th { color: var(--soft); border-top: 0 }
.amount { text-align: right; padding-right: 0; white-space: nowrap; font-variant-numeric: tabular-nums }
tfoot th, tfoot td, .rider th, .rider td { font-weight: 600 }
footer { color: var(--soft); font-size: .85rem }
@media (max-width: 30rem) { table { font-size: .75rem } th, td { padding-right: .2rem } }
@media print {
  :root { --ink: #000; --soft: #333; --line: #888; --back: #fff; --card: #fff; --accent: #000 }
  body { max-width: none; padding: 0; font-size: 10pt }
  a { text-decoration: none }
}
</style>
</head>
<body>
<h1>Journeys</h1>
<p class="question">"##;

/// A word of the question.
pub const WORD: &str = "$ ";

/// No values.
pub const QUESTION_END: &str = "</p>\n<main>\n";

/// No values: where there is no journey.
pub const NO_JOURNEY: &str = "<p>There is no journey.</p>\n";

/// The date of the page, twice.
pub const DAY: &str = "<p>Times without a date are of <time datetime=\"$\">$</time>.</p>\n";

/// No values.
pub const CHART_START: &str =
    r##"<svg class="chart" role="group" aria-label="Arrival and price of each journey">
<text class="axis" x="2%" y="14" style="text-anchor: start">price ↑</text>
<text class="axis" x="98%" y="100%" dy="-4" style="text-anchor: end">arrival →</text>
<svg x="16%" y="14%" width="68%" height="62%">
<rect class="frame" x="-16%" y="-12%" width="132%" height="134%"/>
"##;

/// The number of the journey; where it stands from the left and from above, twice, and its rides.
pub const MARK_START: &str =
    r##"<a class="mark" href="#journey$"><circle cx="$%" cy="$%" r="12"/><text x="$%" y="$%" dy="5">$</text>"##;

/// Where it stands from the left and from above; the minute of its arrival, the second where it isn't 00, and its price.
pub const MARK_LABEL: &str = r##"<text class="label" x="$%" y="$%" dy="27">$$ $</text>"##;

/// The number of the journey; the date, the minute and the second of its arrival; its rides; its price and the currency.
pub const MARK_END: &str = r##"<title>journey $: arrives $ $$, rides: $, price: $ $</title></a>
"##;

/// No values.
pub const CHART_END: &str = "</svg>\n</svg>\n";

/// The number of the journey, four times.
pub const JOURNEY_START: &str = r##"<section class="journey" id="journey$" aria-labelledby="head$">
<h2 id="head$"><span class="number">$</span> "##;

/// No values.
pub const LEAVES: &str = "leaves ";

/// No values.
pub const ALSO: &str = ", ";

/// No values.
pub const ARRIVES: &str = "arrives ";

/// The rides, the price and the currency.
pub const HEAD_END: &str = ", rides: $, price: $ $</h2>\n";

/// The number of the journey, and where its line begins and ends.
pub const BAR_START: &str = r##"<svg class="bar" role="img"><title>journey $ through time</title>
<line class="span" x1="$%" x2="$%" y1="50%" y2="50%"/>
"##;

/// Where the walk begins and ends.
pub const WALK_BAR: &str =
    r##"<line class="walk" x1="$%" x2="$%" y1="50%" y2="50%"><title>walk</title></line>
"##;

/// Where the ride begins, how long it is, the colour of its line, and its name.
pub const RIDE_BAR: &str =
    r##"<rect class="ride" x="$%" width="$%" y="20%" height="60%" fill="#$"><title>$</title></rect>
"##;

/// No values.
pub const BAR_END: &str = "</svg>\n<ol class=\"way\">\n";

/// The date, the minute and the second behind it; the minute, the second where it isn't 00, and the date where it isn't that of the page.
pub const TIME: &str = r##"<time datetime="$T$$">$$<small>$</small></time>"##;

/// The stop.
pub const STAY: &str = "<li class=\"walk\">stay at <bdi>$</bdi></li>\n";

/// The minutes and the seconds that are left, of these twice; the stops.
pub const WALK: &str =
    r##"<li class="walk">walk $ min<span class="rest$"> $ s</span> from <bdi>$</bdi> to <bdi>$</bdi></li>
"##;

/// The minutes and the seconds that are left, of these twice.
pub const WAIT: &str = r##"<li class="wait">wait $ min<span class="rest$"> $ s</span></li>
"##;

/// The colour of the line, and its name.
pub const RIDE_START: &str =
    r##"<li class="ride" style="--route: #$"><span class="line"><bdi>$</bdi></span> "##;

/// The stop where one boards.
pub const RIDE_FROM: &str = " <bdi>$</bdi> – ";

/// The stop where one alights, and the trip.
pub const RIDE_END: &str = " <bdi>$</bdi> <span class=\"trip\">trip <bdi>$</bdi></span></li>\n";

/// No values.
pub const WAY_END: &str = "</ol>\n";

/// No values.
pub const TICKETS_START: &str = r##"<table>
<caption>Tickets</caption>
<thead><tr><th scope="col">leg</th><th scope="col">ticket</th><th scope="col">product</th><th scope="col">medium</th><th scope="col" class="amount">amount</th></tr></thead>
<tbody>
"##;

/// The number of the rider and the category, the sum and the currency.
pub const RIDER: &str =
    r##"<tr class="rider"><th scope="rowgroup" colspan="4">rider $: <bdi>$</bdi></th><td class="amount">$ $</td></tr>
"##;

/// The number of the leg, the product, the medium, the amount and the currency, here and in the next ones.
pub const BOUGHT: &str =
    r##"<tr><th scope="row">$</th><td>bought</td><td><bdi>$</bdi></td><td><bdi>$</bdi></td><td class="amount">$ $</td></tr>
"##;

/// A leg that is included.
pub const INCLUDED: &str =
    r##"<tr><th scope="row">$</th><td>included</td><td><bdi>$</bdi></td><td><bdi>$</bdi></td><td class="amount">$ $</td></tr>
"##;

/// A change that makes a price less.
pub const REDUCED: &str =
    r##"<tr><th scope="row">$, change</th><td>reduced</td><td><bdi>$</bdi></td><td><bdi>$</bdi></td><td class="amount">$ $</td></tr>
"##;

/// A change that costs nothing.
pub const FREE_CHANGE: &str =
    r##"<tr><th scope="row">$, change</th><td>free</td><td><bdi>$</bdi></td><td><bdi>$</bdi></td><td class="amount">$ $</td></tr>
"##;

/// A change that is paid for.
pub const PAID_CHANGE: &str =
    r##"<tr><th scope="row">$, change</th><td>bought</td><td><bdi>$</bdi></td><td><bdi>$</bdi></td><td class="amount">$ $</td></tr>
"##;

/// The price and the currency.
pub const TICKETS_END: &str = r##"</tbody>
<tfoot><tr><th scope="row" colspan="4">sum</th><td class="amount">$ $</td></tr></tfoot>
</table>
"##;

/// No values.
pub const JOURNEY_END: &str = "</section>\n";

/// How many partial journeys the search kept.
pub const LABELS: &str = "<footer>The search kept $ partial journeys.</footer>\n";

/// No values.
pub const PAGE_END: &str = "</main>\n</body>\n</html>\n";
