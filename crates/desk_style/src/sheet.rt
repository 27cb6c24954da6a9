//! The style sheet of the desk's pages, as it is sent.

/// All of it. Its address has a number that is another whenever it is.
pub(crate) const SHEET: &str =
    r#"/* The desk's pages. One sheet: light and dark, from 320 pixels up, screen and paper. */

:root {
  color-scheme: light dark;
  --page: #f4f6f5;
  --sheet: #ffffff;
  --ink: #1a2125;
  --soft: #55616a;
  --line: #d8dedc;
  --field: #7d8a91;
  --link: #07606b;
  --fill: #0a6a75;
  --on-fill: #ffffff;
  --wash: #e2f0f0;
  --late: #a51d17;
  --late-wash: #fcecea;
  --note: #fdf6df;
  --note-line: #d3b04a;
  --note-ink: #6a4f00;
  --focus: #b3560a;
}

@media (prefers-color-scheme: dark) {
  :root {
    --page: #12171a;
    --sheet: #1a2125;
    --ink: #e3e8ea;
    --soft: #a2aeb5;
    --line: #313b41;
    --field: #75838b;
    --link: #7bcbd3;
    --fill: #7bcbd3;
    --on-fill: #0b1a1c;
    --wash: #1d373b;
    --late: #ff9c92;
    --late-wash: #3a1f1d;
    --note: #2a2617;
    --note-line: #7d6a2c;
    --note-ink: #e6cb7a;
    --focus: #ffb067;
  }
}

*, ::before, ::after { box-sizing: border-box }

body {
  margin: 0;
  min-height: 100vh;
  display: flex;
  flex-direction: column;
  background: var(--page);
  color: var(--ink);
  font: .9375rem/1.5 system-ui, -apple-system, "Segoe UI", Roboto, "Noto Sans", sans-serif;
}

main {
  flex: 1;
  width: 100%;
  max-width: 78rem;
  margin: 0 auto;
  padding: 1.25rem clamp(.875rem, 3vw, 2rem) 2.5rem;
}

h1 { margin: 0 0 1rem; font-size: 1.375rem; line-height: 1.35; font-weight: 650; overflow-wrap: anywhere }
h1 span { color: var(--soft); font-weight: 400 }
h2 { margin: 0 0 .5rem; font-size: 1rem; line-height: 1.5; font-weight: 650 }
a { color: var(--link); text-underline-offset: .2em }
p { margin: 0 0 1rem }
time, table { font-variant-numeric: tabular-nums }
time { white-space: nowrap }
:focus-visible { outline: 3px solid var(--focus); outline-offset: 2px }
.off { position: absolute; width: 1px; height: 1px; overflow: hidden; clip-path: inset(50%); white-space: nowrap }
.skip { position: absolute; left: -999rem; padding: .5rem 1rem; background: var(--sheet) }
.skip:focus { left: .5rem; top: .5rem }

/* Above and below */

header {
  display: flex;
  flex-wrap: wrap;
  align-items: center;
  gap: .375rem 1.25rem;
  padding: .5rem max(clamp(.875rem, 3vw, 2rem), (100% - 78rem) / 2 + 2rem);
  background: var(--sheet);
  border-bottom: 1px solid var(--line);
  border-top: .25rem solid var(--fill);
}
header > b { font-size: 1.0625rem; letter-spacing: .01em }
header nav { display: flex; gap: .25rem; margin-right: auto }
header nav a { padding: .3125rem .625rem; border-radius: .375rem; text-decoration: none }
header nav a:hover { background: var(--wash) }
header nav a[aria-current] { background: var(--wash); font-weight: 650; text-decoration: underline }
header form { display: flex; align-items: center; gap: .5rem }
header input { width: 12.5rem }
footer { padding: .75rem 1rem 1.25rem; color: var(--soft); font-size: .8125rem; text-align: center }
.side { float: inline-end; margin: 0 }
.crumb { margin: 0 0 .25rem; color: var(--soft); font-size: .875rem }

/* Forms */

input, select, textarea, button, .button {
  font: inherit;
  min-height: 2.25rem;
  padding: .3125rem .625rem;
  border: 1px solid var(--field);
  border-radius: .375rem;
  background: var(--sheet);
  color: var(--ink);
}
input, select, textarea { width: 100%; min-width: 0 }
::placeholder { color: var(--soft); opacity: 1 }
textarea { display: block; resize: vertical; tab-size: 4 }
button, .button { display: inline-flex; align-items: center; justify-content: center; border-color: var(--line); color: var(--link); font-weight: 550; text-decoration: none; cursor: pointer }
button:hover, .button:hover { background: var(--wash); border-color: var(--link) }
[type=checkbox] { width: 1.125rem; min-height: 1.125rem; margin: 0; accent-color: var(--fill) }
.button, .sheet > button, .bare button, .write > form > button {
  background: var(--fill);
  border-color: var(--fill);
  color: var(--on-fill);
}
.button:hover, .sheet > button:hover, .bare button:hover, .write > form > button:hover {
  background: var(--ink);
  border-color: var(--ink);
  color: var(--sheet);
}
fieldset { margin: 0; padding: 0; border: 0; min-width: 0 }
legend { padding: 0 }
summary { padding: .375rem 0; color: var(--link); font-weight: 600; cursor: pointer }
details { margin-top: 1rem }

.sheet { max-width: 40rem; padding: 1rem 1.25rem 1.25rem; background: var(--sheet); border: 1px solid var(--line); border-radius: .5rem }
.sheet label { display: block; font-weight: 600; margin-bottom: .25rem }
.sheet > :is(input, select, textarea) { margin-bottom: .75rem }
.sheet > :is(input, textarea):has(+ p) { margin-bottom: .25rem }
.sheet p { color: var(--soft); font-size: .875rem; margin-bottom: .75rem }
.sheet > button { margin-top: .25rem }
.fields { display: grid; grid-template-columns: 1fr 1fr; gap: .5rem 2rem; max-width: none; margin-bottom: 1.25rem }
.fields p { display: grid; grid-template-columns: 6.5rem 1fr; align-items: center; margin: 0; color: var(--ink); font-size: inherit }
.fields p label { margin: 0 }
.fields .tick { display: flex; gap: .5rem; padding-inline-start: 6.5rem }
.fields .tick label { font-weight: 400 }
.fields .how { display: block; grid-column: 1 / -1; color: var(--soft); font-size: .875rem }
.fields > button { grid-column: 1 / -1; justify-self: start; margin: 0 }

/* What stands out */

.state { white-space: nowrap }
.state::before { content: ""; display: inline-block; width: .625rem; height: .625rem; margin-right: .4375rem; border: 2px solid var(--fill); border-radius: 50% }
.state.active::before { border-width: .3125rem }
.state.inactive::before { border: .3125rem solid var(--soft); border-radius: .125rem }
.state.inactive { color: var(--soft) }
strong { padding: 0 .4375rem; border: 1px solid; border-radius: 1rem; background: var(--late-wash); color: var(--late); font-size: .8125rem; font-weight: 650; white-space: nowrap }
.alert { max-width: 44rem; padding: .875rem 1.125rem; background: var(--sheet); border: 1px solid var(--line); border-left: .375rem solid var(--late); border-radius: .375rem }
.alert code { display: block; margin-top: .375rem; color: var(--soft); font-size: .8125rem }

/* Tables */

table { width: 100%; border-spacing: 0; background: var(--sheet); border: 1px solid var(--line); border-radius: .5rem }
caption { padding-bottom: .375rem; color: var(--soft); font-size: .875rem; text-align: start }
th, td { padding: .4375rem .75rem; text-align: start; vertical-align: baseline; font-weight: inherit }
thead th { color: var(--soft); font-size: .8125rem; font-weight: 600 }
tbody :is(th, td), tfoot :is(th, td) { border-top: 1px solid var(--line) }
tbody tr:hover { background: var(--wash) }
tfoot :is(th, td) { font-weight: 650 }

.list th[scope=row] { width: 99%; overflow-wrap: anywhere }
.list th[scope=row] a { text-decoration: none; font-weight: 550 }
.list th[scope=row] a:hover { text-decoration: underline }
.list td { white-space: nowrap }
.list td:first-child { text-align: end; color: var(--soft) }
.list tr.inactive a { font-weight: 400 }
.list tbody tr.late > :first-child { box-shadow: inset .25rem 0 var(--late) }
tr.mine .owner { font-weight: 650 }
tr.nobody .owner { font-style: italic; color: var(--soft) }
.late.list th[scope=row] { width: auto }
.late.list :is(th, td) { padding-inline-end: 2rem }
.late.list td:last-child { width: 99% }
.late.list strong { padding: 0; border: 0; background: none; font-size: inherit }

.queues td:last-child, .queues th:last-child { text-align: end }

.tiles { display: flex; flex-wrap: wrap; gap: .75rem; margin: 0 0 1.5rem }
.tiles div { flex: 1 1 10rem; padding: .625rem 1rem .75rem; background: var(--sheet); border: 1px solid var(--line); border-radius: .5rem }
.tiles dt { color: var(--soft); font-size: .875rem }
.tiles dd { display: inline-block; margin: 0 1rem 0 0 }
.tiles dd b { font-size: 1.625rem; line-height: 1.2; font-weight: 600; font-variant-numeric: tabular-nums }
.tiles dd a { color: inherit; text-decoration: none }
.tiles dd a:hover { text-decoration: underline }
.tiles .late, td.late { color: var(--late); font-weight: 650 }
.queues td:not(:last-child) > a, .load td > a { color: inherit; text-decoration: none }
:is(.queues, .load) td > a:hover { text-decoration: underline }

/* What is sought, what narrows it, and which of it a page shows */

.pills, .chips, .paging { display: flex; flex-wrap: wrap; align-items: center; gap: .375rem; margin: 0 0 .875rem }
.pills { gap: .375rem 1.25rem; margin-bottom: .375rem }
.pills ul { display: flex; flex-wrap: wrap; margin: 0; padding: 0; list-style: none }
.pills a { display: block; margin-inline-start: -1px; padding: .25rem .75rem; border: 1px solid var(--line); background: var(--sheet); text-decoration: none }
.pills li:first-child a { border-start-start-radius: 1rem; border-end-start-radius: 1rem }
.pills li:last-child a { border-start-end-radius: 1rem; border-end-end-radius: 1rem }
.pills a[aria-current] { background: var(--wash); font-weight: 650; box-shadow: inset 0 -2px var(--link) }
.chips, .paging { color: var(--soft); font-variant-numeric: tabular-nums }
.chips a, .paging a { padding: .125rem .625rem; border: 1px solid var(--line); border-radius: .375rem; background: var(--sheet); text-decoration: none }
.chips a { border-color: var(--link); background: var(--wash); overflow-wrap: anywhere; min-width: 0 }
:is(.pills, .chips, .paging) a:hover { background: var(--wash); text-decoration: underline }
details + .paging { margin-top: .875rem }
.none { display: none; padding: 1rem; color: var(--soft); text-align: center }
.list:not(:has(tbody tr)) + .none { display: block }
.none + .paging { margin-top: .875rem }

/* A request */

.facts { display: flex; flex-wrap: wrap; gap: .5rem 1.75rem; margin: 0 0 1.25rem; padding: .625rem 1rem; background: var(--sheet); border: 1px solid var(--line); border-radius: .5rem }
.facts dt { color: var(--soft); font-size: .8125rem; line-height: 1.3 }
.facts dd { margin: 0; font-weight: 550 }
.facts dd > * { margin-right: .25rem }
.facts a { overflow-wrap: anywhere }
.facts details { display: inline-block; max-width: 100%; margin: 0; vertical-align: top }
.facts summary { display: inline-flex; align-items: center; justify-content: center; min-height: 1.5rem; min-width: 1.5rem; padding: 0 .375rem; border: 1px solid transparent; border-radius: .375rem; color: var(--soft); font-size: .8125rem; font-weight: 400; list-style: none }
.facts summary::-webkit-details-marker { display: none }
.facts :is(summary:hover, [open] > summary) { border-color: var(--link); background: var(--wash); color: var(--link) }
.facts summary:focus-visible { border-color: var(--focus); outline-offset: 0; color: var(--ink) }
.facts form button { min-height: 1.75rem; margin-top: .25rem; font-size: .8125rem; overflow-wrap: anywhere }
small { color: var(--soft); font-size: .8125rem; font-weight: 400; white-space: nowrap }

.history { margin: 0 0 1.5rem; padding: 0; list-style: none }
.history p { display: grid; grid-template-columns: 1.75rem 1fr auto; gap: 0 .5rem; margin: 0; padding: .1875rem .75rem .1875rem 0; color: var(--soft); font-size: .875rem }
.history i { font-style: normal; text-align: end; font-variant-numeric: tabular-nums }
.history span { overflow-wrap: anywhere }
.history span b:first-child { color: var(--ink) }
.history b { font-weight: 600 }
.history :is(.reply, .comment) { margin: .5rem 0; background: var(--sheet); border: 1px solid var(--line); border-radius: .5rem; overflow: hidden }
.history :is(.reply, .comment) p { padding-block: .375rem; border-bottom: 1px solid var(--line) }
.history div { padding: .625rem .875rem .75rem 2.25rem; white-space: pre-wrap; overflow-wrap: anywhere; tab-size: 4 }
.history .comment { background: var(--note); border: 1px dashed var(--note-line) }
.history .comment p { border-bottom: 1px dashed var(--note-line); color: var(--note-ink) }
.history li:target, .history:has(+ #reply:target) > li:last-child { outline: 2px solid var(--link); outline-offset: 1px; border-radius: .5rem }
#reply { scroll-margin-top: 40vh }
.history li { scroll-margin-top: 1rem }

main > :is(.write, .sheet) { max-width: 44rem; margin-bottom: 1rem }
main > :is(.write, .sheet) ~ p > .button { background: none; border-color: var(--line); color: var(--link) }
.write form { padding: .875rem 1rem 1rem; background: var(--sheet); border: 1px solid var(--line); border-radius: .5rem }
.write label { display: block; margin-bottom: .375rem; font-weight: 600 }
.write button { margin-top: .625rem }
.write details { padding: .25rem 1rem; border: 1px dashed var(--note-line); border-radius: .5rem; background: var(--note) }
.write details form { padding: .25rem 0 .75rem; background: none; border: 0 }
.write summary, .write details label { color: var(--note-ink) }

.change { background: var(--sheet); border: 1px solid var(--line); border-radius: .5rem; padding: .5rem 1rem .25rem; margin: 1rem 0 0 }
.change form { display: grid; grid-template-columns: 4.25rem 1fr auto; gap: .5rem; align-items: center; padding: .75rem 0; border-top: 1px solid var(--line) }
.change label, .change legend { color: var(--soft); font-size: .875rem }
.change fieldset { grid-column: 1 / -1; display: flex; flex-wrap: wrap; gap: .375rem }
.change legend { margin-bottom: .375rem }
.change form > button:only-child { grid-column: 1 / -1 }
.change form:has([formaction]) :is(input, select) { grid-column: 2 / -1 }
.change form:has([formaction]) button { grid-column: 2; justify-self: stretch }
.change form:has([formaction]) [formaction] { grid-column: 3 }
.more { flex: 1 1 100%; margin: 0 }
.more summary { padding: .25rem 0; font-size: .875rem; font-weight: 550 }
.more div { display: flex; flex-wrap: wrap; gap: .375rem; padding: .25rem 0 }

@media (min-width: 60rem) {
  .request { display: grid; grid-template-columns: minmax(0, 1fr) 20rem; gap: 0 1.5rem; align-items: start }
  .change { margin: 0; position: sticky; top: 1rem; max-height: calc(100vh - 2rem); overflow: auto }
}

/* Workload */

.load :is(th, td) { white-space: nowrap }
.load :is(th, td):nth-child(n+2) { text-align: end }
.load td:last-child { width: 60%; vertical-align: middle }
meter { display: block; width: 100%; height: .75rem; margin: 0; border: 0; border-radius: .25rem; background: var(--page); -webkit-appearance: none; appearance: none; overflow: hidden }
meter + meter { height: .375rem; margin-top: .125rem }
meter::-webkit-meter-inner-element { height: 100%; grid-template-rows: 100% }
meter::-webkit-meter-bar { grid-row: 1; align-self: stretch; height: 100%; border: 0; border-radius: 0; background: var(--page) }
meter::-webkit-meter-optimum-value { height: 100%; border-radius: 0; background: var(--fill) }
meter::-moz-meter-bar { background: var(--fill) }
meter + meter::-webkit-meter-optimum-value { background: repeating-linear-gradient(135deg, var(--late) 0 .25rem, var(--late-wash) .25rem .375rem) }
meter + meter::-moz-meter-bar { background: repeating-linear-gradient(135deg, var(--late) 0 .25rem, var(--late-wash) .25rem .375rem) }

/* Pages without a head: signing in, and faults */

.bare main { max-width: 30rem; padding-top: 12vh }
.bare h1 { padding-top: .75rem; border-top: .25rem solid var(--fill) }
.bare form { padding: 1.25rem; margin-bottom: 1rem; background: var(--sheet); border: 1px solid var(--line); border-radius: .5rem }
.bare label { display: block; margin-bottom: .375rem; font-weight: 600 }
:is(.bare, .write) .line { display: flex; align-items: center; gap: .5rem; margin: .875rem 0; font-weight: 400 }
.bare form button { width: 100% }

/* Small screens: each row of a list becomes a few lines */

@media (max-width: 62rem) {
  h1 { font-size: 1.1875rem }
  .list thead { position: absolute; width: 1px; height: 1px; overflow: hidden; clip-path: inset(50%) }
  .list { border: 0; background: none }
  .list tbody { background: var(--sheet); border: 1px solid var(--line); border-radius: .5rem; overflow: hidden }
  .list, .list tbody { display: block }
  .late.list :is(th, td) { padding: 0 }
  .late.list td:last-child { width: auto }
  .side { float: none; margin-bottom: .875rem }
  .list tr { display: flex; flex-wrap: wrap; gap: 0 .875rem; padding: .5rem .875rem .5625rem; border-top: 1px solid var(--line) }
  .list tbody tr:first-child { border-top: 0 }
  .list tr :is(th, td) { display: block; padding: 0; border: 0 }
  .list th[scope=row] { order: -1; width: 100% }
  .list tbody tr.late { box-shadow: inset .25rem 0 var(--late) }
  .list .waits::before { content: "waits for " }
  .list tr.inactive .waits { display: none }
  .list tbody tr.late > :first-child { box-shadow: none }
  .list caption { display: block }
  .fields { display: block }
  .fields > :is(p, button) { margin-bottom: .5rem }
  .load td:last-child { width: 40% }
  .load :is(th, td), .queues :is(th, td) { padding-inline: .5rem }
}

@media (max-width: 22rem) {
  .queues, .load { font-size: .8125rem }
  .queues :is(th, td), .load :is(th, td) { padding-inline: .375rem }
}

@media (pointer: coarse) {
  input, select, button, .button { min-height: 2.75rem }
  .facts :is(summary, form button) { min-height: 2.25rem; min-width: 2.25rem }
  .more summary { padding-block: .625rem }
  input, select, textarea { font-size: 1rem }
  nav a { padding-block: .5rem }
  .chips a, .paging a { padding-block: .375rem }
}

@media (forced-colors: active) {
  nav a[aria-current] { border: 2px solid Highlight }
}

@media print {
  :root { --page: #fff; --sheet: #fff; --ink: #000; --soft: #333; --line: #999; --link: #000; --fill: #000; --late: #000; --late-wash: #fff; --note: #fff; --note-ink: #000 }
  nav, form, button, .skip, .pills, .paging a, .write, .change, .button, details, .queues td:last-child, .queues th:last-child { display: none !important }
  header { border-top: 0 }
  body { font-size: 10pt; display: block }
  main { padding: 0; max-width: none }
  .request { display: block }
  tr, .history p { break-inside: avoid }
  thead { display: table-header-group }
}
"#;
