//! The template of a page. tools/template writes this file; what to change is web/board.html.

/// What stands before the data.
pub const HEAD: &str = r###"<!doctype html>
<html lang="en">
<head>
<meta charset="utf-8">
<meta name="viewport" content="width=device-width, initial-scale=1">
<meta http-equiv="Content-Security-Policy" content="default-src 'none'; style-src 'unsafe-inline'; script-src 'unsafe-inline'; img-src data:; base-uri 'none'; form-action 'none'">
<title>Ward board</title>
<style>
:root {
  --ink: #16222e; --soft: #566573; --line: #d7dee5; --hair: #e8edf2; --ground: #ffffff; --panel: #f5f7f9; --rest: #eef1f4;
  --accent: #0b5cad; --warn: #b3261e; --warn-ground: #fdecea; --first: #0f66b4; --second: #7d4698; --bar-ink: #ffffff;
  --small: 11px; --text: 13px; --head: 16px; --title: 22px;
}
@media (prefers-color-scheme: dark) {
  :root {
    --ink: #e6ebf0; --soft: #9fadba; --line: #33404c; --hair: #26313b; --ground: #12181e; --panel: #1a222a; --rest: #1d262e;
    --accent: #6fb1f0; --warn: #ff8a80; --warn-ground: #3a1a18; --first: #2b78c2; --second: #9160ad; --bar-ink: #ffffff;
  }
}
* { box-sizing: border-box; }
html { -webkit-text-size-adjust: 100%; }
body {
  margin: 0; background: var(--ground); color: var(--ink); font: var(--text)/1.4 system-ui, "Segoe UI", Roboto, "Helvetica Neue", Arial, sans-serif;
  font-variant-numeric: tabular-nums;
}
header, nav, main, footer { padding: 0 20px; }
header { padding-top: 16px; }
h1 { font-size: var(--title); line-height: 1.2; margin: 0; font-weight: 700; }
h2 { font-size: var(--head); margin: 24px 0 8px; }
h3 { font-size: var(--text); margin: 0 0 4px; }
p { margin: 4px 0; }
.soft { color: var(--soft); }
.small { font-size: var(--small); }
.warn, .warn a { color: var(--warn); font-weight: 600; }
tr.hit > * { background: var(--warn-ground); }
a { color: var(--accent); }
button, input, select { font: inherit; color: inherit; }
:focus-visible { outline: 2px solid var(--accent); outline-offset: 1px; }
.costbar { display: flex; height: 12px; margin: 8px 0 4px; border-radius: 4px; overflow: hidden; background: var(--rest); max-width: 720px; }
.costbar span { display: block; height: 100%; border-right: 1px solid var(--ground); }
.legend { display: flex; flex-wrap: wrap; gap: 4px 12px; }
.legend i { display: inline-block; width: 8px; height: 8px; border-radius: 2px; margin-right: 4px; }
nav { position: sticky; top: 0; z-index: 6; background: var(--ground); border-bottom: 1px solid var(--line); margin-top: 12px; padding-top: 8px; padding-bottom: 8px;
  display: flex; flex-wrap: wrap; gap: 8px; align-items: center; }
nav .tabs, nav .span { display: flex; gap: 0; max-width: 100%; overflow-x: auto; }
nav button { white-space: nowrap; }
nav button { background: var(--panel); border: 1px solid var(--line); padding: 4px 12px; cursor: pointer; margin-left: -1px; }
nav .tabs button:first-child, nav .span button:first-child { border-radius: 6px 0 0 6px; margin-left: 0; }
nav .tabs button:last-child, nav .span button:last-child { border-radius: 0 6px 6px 0; }
nav button[aria-pressed="true"] { background: var(--accent); border-color: var(--accent); color: var(--ground); }
nav input { padding: 4px 8px; border: 1px solid var(--line); border-radius: 6px; background: var(--ground); min-width: 180px; }
nav .grow { flex: 1; }
.scroll { overflow: auto; max-height: calc(100vh - 72px); border: 1px solid var(--line); border-radius: 8px; }
table { border-collapse: separate; border-spacing: 0; }
th { text-align: left; font-weight: 600; }
.board { width: 100%; table-layout: fixed; }
.board th, .board td { padding: 0; height: 24px; border-top: 1px solid var(--hair); vertical-align: middle; }
.board thead th { position: sticky; top: 0; z-index: 3; background: var(--panel); padding: 4px; border-bottom: 1px solid var(--line); border-top: 0; font-size: var(--small); white-space: nowrap; overflow: hidden; text-overflow: ellipsis; }
.board th.room { position: sticky; left: 0; z-index: 2; background: var(--panel); padding: 4px 8px; vertical-align: top; border-right: 1px solid var(--line); overflow-wrap: anywhere; }
.board thead th.room { z-index: 4; }
.board tr.begin > * { border-top: 2px solid var(--line); }
.board td.rest, .board th.rest { background: var(--rest); }
.board td.beyond { background-image: repeating-linear-gradient(135deg, transparent 0 6px, var(--hair) 6px 8px); }
.board td.today { box-shadow: inset 1px 0 var(--accent), inset -1px 0 var(--accent); }
.bar { display: block; width: calc(100% - 4px); margin: 1px 2px; padding: 2px 6px; border: 1px solid transparent; border-radius: 4px; color: var(--bar-ink); background: var(--first); font-weight: 600;
  text-align: left; white-space: nowrap; overflow: hidden; text-overflow: ellipsis; cursor: pointer; line-height: 16px; height: 22px; }
.bar small { font-weight: 400; font-size: var(--small); opacity: .92; }
.bar.second { background: var(--second); background-image: repeating-linear-gradient(90deg, rgba(255,255,255,.13) 0 2px, transparent 2px 8px); }
.bar.here { border: 1px dashed var(--bar-ink); box-shadow: 0 0 0 1px var(--soft); }
.bar.changed { outline: 2px solid var(--accent); outline-offset: 0; }
.bar.broken { outline: 2px solid var(--warn); }
.bar.dim, .dim { opacity: .28; }
.bar.hit { box-shadow: 0 0 0 3px var(--accent); }
.board tr.over th, .board tr.over td { background: var(--warn-ground); }
.board td.nurses { font-size: var(--small); color: var(--soft); padding: 2px 4px; white-space: nowrap; overflow: hidden; text-overflow: ellipsis; border-left: 1px solid var(--hair); height: 18px; }
.board td.nurses .off { color: var(--warn); font-weight: 600; }
.cards { display: grid; grid-template-columns: repeat(auto-fill, minmax(228px, 1fr)); gap: 12px; }
.card { border: 1px solid var(--line); border-radius: 8px; padding: 8px 12px; break-inside: avoid; background: var(--ground); }
.card h3 { font-size: var(--head); display: flex; justify-content: space-between; }
.card h3 small { font-size: var(--small); font-weight: 400; color: var(--soft); }
.card dl, dialog dl { display: grid; grid-template-columns: max-content 1fr; gap: 0 8px; margin: 4px 0 0; }
.card dt, dialog dt { color: var(--soft); }
.card dd, dialog dd { margin: 0; }
.card ul { list-style: none; margin: 0; padding: 0; }
.card .link, .link { background: none; border: 0; padding: 0; font-weight: 600; cursor: pointer; color: inherit; text-align: left; }
.link:hover { text-decoration: underline; }
.grid { width: 100%; }
.grid th, .grid td { border-top: 1px solid var(--hair); padding: 2px 6px; white-space: nowrap; }
.grid thead th { position: sticky; top: 0; background: var(--panel); z-index: 3; border-bottom: 1px solid var(--line); font-size: var(--small); }
.grid tbody th { position: sticky; left: 0; background: var(--panel); z-index: 2; border-right: 1px solid var(--line); }
.grid thead th:first-child { left: 0; z-index: 4; }
.grid td.load { position: relative; min-width: 56px; text-align: right; }
.grid td.load i { position: absolute; left: 1px; bottom: 1px; top: 1px; background: var(--accent); opacity: .22; border-radius: 2px; }
.grid td.load.over i { background: var(--warn); opacity: .4; }
.grid td.load b { position: relative; font-weight: 400; }
.grid td.rest, .grid th.rest { background: var(--rest); }
.list { width: 100%; max-width: 980px; }
.list th, .list td { padding: 4px 8px; border-top: 1px solid var(--hair); vertical-align: top; }
.list thead th { border-top: 0; color: var(--soft); font-weight: 400; font-size: var(--small); }
.list td.n, .list th.n { text-align: right; }
/* Tables of very many cells: on the screen their columns are equally wide, so that rows out of sight needn't be laid out. */
@media screen {
  .great, .great thead, .great tbody { display: block; }
  .great { min-width: var(--all, 0); }
  .grid.great thead { position: sticky; top: 0; z-index: 3; }
  .great tr { display: flex; }
  .great tbody { content-visibility: auto; contain-intrinsic-size: auto 192px; }
  .great th, .great td { flex: 1 0 0; min-width: 0; white-space: normal; overflow-wrap: anywhere; }
  .great tr > :first-child { flex: 0 0 var(--names, 20%); }
}
dialog { border: 1px solid var(--line); border-radius: 8px; padding: 12px 16px; color: var(--ink); background: var(--ground); max-width: 440px; box-shadow: 0 8px 32px rgba(0, 0, 0, .28); }
dialog::backdrop { background: rgba(0, 0, 0, .2); }
dialog form { text-align: right; margin-top: 8px; }
footer { margin: 24px 0 16px; }
.unseen { position: absolute; width: 1px; height: 1px; overflow: hidden; clip-path: inset(50%); white-space: nowrap; }
@media (max-width: 640px) {
  header, nav, main, footer { padding-left: 8px; padding-right: 8px; }
  .board th.room { padding: 4px; font-size: var(--small); }
  nav input { min-width: 120px; flex: 1; }
}
@media print {
  :root { --ink: #000; --soft: #444; --line: #999; --hair: #ccc; --ground: #fff; --panel: #f3f3f3; --rest: #eaeaea; --accent: #0b5cad; --warn: #b3261e; --warn-ground: #fdecea; --first: #0f66b4; --second: #7d4698; --title: 13pt; --head: 10pt; --text: 8pt; --small: 8pt; }
  * { print-color-adjust: exact; -webkit-print-color-adjust: exact; }
  nav, footer, .hide-print, .costbar { display: none !important; }
  body { line-height: 1.2; }
  header, main { padding: 0; }
  header p { display: inline; margin-right: 3mm; }
  h1 { display: inline; margin-right: 3mm; }
  h2 { margin: 3mm 0 1mm; break-after: avoid; }
  .sheet { break-before: page; margin-top: 0; }
  .scroll { overflow: visible; max-height: none; border: 0; margin-top: 1mm; }
  .board { min-width: 0 !important; }
  .board th, .board td { height: 3.5mm; }
  .board thead th { padding: 0 1mm; }
  .board th.room { padding: 0 1mm; line-height: 3.3mm; }
  .board td.nurses { padding: 0 1mm; height: 3.4mm; line-height: 3.2mm; }
  .bar { height: 3.2mm; line-height: 2.9mm; padding: 0 1mm; margin: .1mm .3mm; width: calc(100% - .6mm); }
  .grid th, .grid td { padding: 0 1mm; }
  .grid td.load { min-width: 0; }
  thead { display: table-header-group; }
  tr, .card, tbody.one { break-inside: avoid; }
  .list th, .list td { padding: .5mm 2mm; }
  .cards { grid-template-columns: repeat(5, 1fr); gap: 2mm; }
  .card { padding: 1mm 2mm; }
}
</style>
</head>
<body>
<noscript><p style="padding: 20px">This page draws the board with a script of its own, and the browser runs none. The plan's data stands in this file as JSON.</p></noscript>
<header id="head"></header>
<nav id="bar" aria-label="What is shown"></nav>
<main id="sheet" tabindex="-1"></main>
<footer id="foot" class="soft small"></footer>
<dialog id="card" aria-labelledby="card-name"></dialog>
<script type="application/json" id="data">"###;

/// What stands behind it.
pub const TAIL: &str = r###"</script>
<script>
"use strict";
const given = JSON.parse(document.getElementById("data").textContent);
const RULES = ["mixed genders in a room", "an incompatible room", "minutes above a surgeon's maximum", "minutes above a theatre's time", "mandatory patients left out", "admissions outside the window", "persons above a room's capacity", "nurses who don't work the shift", "occupied rooms without a nurse"];
const COSTS = ["mixed ages", "missing skill", "different nurses", "excess workload", "open theatres", "surgeons' transfers", "waiting days", "patients left out"];
const SHADES = ["#0b5cad", "#3d7fc4", "#6fa3d9", "#9cc3e8", "#7d4698", "#a57bbb", "#5f8a5a", "#b07a2a"];
const WEEKDAYS = ["Mon", "Tue", "Wed", "Thu", "Fri", "Sat", "Sun"];
const MONTHS = ["Jan", "Feb", "Mar", "Apr", "May", "Jun", "Jul", "Aug", "Sep", "Oct", "Nov", "Dec"];

// The data stands in the page by numbers, as the program has it. Here it gets the shape in which it is drawn.
const KINDS = ["stay", "roomday", "theatreday", "surgeonday", "roomshift", "nurseshift", "care"];
const ward = given.instance, { patients, occupants } = ward.persons;
const placed = (stay) => stay === null ? null : { day: stay[0], room: stay[1], theatre: stay[2] };
const shiftsOf = (nurse) => { const most = Array(3 * ward.days).fill(null); for (const [day, shift, load] of nurse.shifts) most[3 * day + shift] = load; return most; };
const data = {
  title: given.heading.title, files: given.heading, first: given.first, days: ward.days, shifts: ward.shifts, ages: ward.ages,
  rules: given.bill.rules, costs: given.bill.costs, cost: given.bill.cost, weights: ward.weights,
  rooms: ward.places.rooms, theatres: ward.places.theatres, surgeons: ward.staff.surgeons, care: given.plan.care, since: given.changes,
  nurses: ward.staff.nurses.map((nurse) => ({ id: nurse.id, skill: nurse.skill, most: shiftsOf(nurse) })),
};
const since = given.changes && { bill: given.changes.bill, stays: new Map(given.changes.patients), nurses: given.changes.shifts.map((shifts) => new Map(shifts)) };
const people = [
  ...patients.map((patient, index) => ({ ...patient, ...patient.person, ...patient.window, index, occupant: false, at: placed(given.plan.stays[index]), ...(since && since.stays.has(index) ? { was: placed(since.stays.get(index)) } : {}) })),
  ...occupants.map((occupant, index) => ({ ...occupant.person, index: patients.length + index, occupant: true, mandatory: false, release: 0, due: null, surgeon: null, minutes: 0, unsuited: [], at: { day: 0, room: occupant.room, theatre: null } })),
];
const foundIn = (lists, make) => lists.flatMap((list, line) => list.map(([amount, kind, row, column]) => ({ cell: KINDS[kind], of: [row, column], amount, ...make(line, amount) })));
const waits = new Map(given.plan.waits);
const findings = [...foundIn(given.findings.rules, (rule) => ({ rule })), ...foundIn(given.findings.costs, (cost, amount) => ({ cost, points: amount * ward.weights[cost] }))];
const broken = findings.filter((found) => found.rule !== undefined);

// Elements are made of names and texts alone: nothing of the data is ever read as HTML.
function make(name, given, ...inside) {
  const element = document.createElement(name);
  for (const [key, value] of Object.entries(given || {})) {
    if (value === null || value === undefined || value === false) continue;
    if (key === "on") for (const [event, call] of Object.entries(value)) element.addEventListener(event, call);
    else if (key === "style") for (const [property, text] of Object.entries(value)) element.style.setProperty(property, text);
    else element.setAttribute(key, value === true ? "" : value);
  }
  put(element, inside);
  return element;
}
function put(element, parts) {
  for (const part of parts) {
    if (Array.isArray(part)) put(element, part);
    else if (part !== null && part !== undefined && part !== false) element.append(part);
  }
}
const english = new Intl.NumberFormat("en-GB");
const number = (value) => english.format(value);
const many = (count, one, more) => count === 1 ? `1 ${one}` : `${number(count)} ${more || one + "s"}`;

// Days: by date where the first one is known, else by number.
const first = data.first === null ? null : new Date(0);
if (first !== null) first.setUTCFullYear(data.first[0], data.first[1] - 1, data.first[2]);
const dateOf = (day) => new Date(first.getTime() + day * 86400000);
const isRest = (day) => first !== null && [0, 6].includes((first.getUTCDay() + day) % 7);
function dayName(day) {
  if (first === null) return `day ${day}`;
  const date = dateOf(day);
  return `${WEEKDAYS[(date.getUTCDay() + 6) % 7]} ${date.getUTCDate()} ${MONTHS[date.getUTCMonth()]}`;
}
const shortDay = (day) => first === null ? `${day}` : view.days > 14 ? `${WEEKDAYS[(dateOf(day).getUTCDay() + 6) % 7][0]} ${dateOf(day).getUTCDate()}` : dayName(day);
function today() {
  if (first === null) return null;
  const now = new Date();
  const day = Math.floor((Date.UTC(now.getFullYear(), now.getMonth(), now.getDate()) - first.getTime()) / 86400000);
  return day >= 0 && day < data.days ? day : null;
}

// What is there: stays by room, and what is unlike the older plan.
const genders = [...new Set(people.map((person) => person.gender))].sort();
const staying = people.filter((person) => person.at);
const waiting = people.filter((person) => !person.at).sort((one, other) => other.mandatory - one.mandatory || (one.release ?? 0) - (other.release ?? 0));
const from = (person) => person.occupant ? 0 : person.at.day;
const until = (person) => Math.min(from(person) + person.stay, data.days);
const isIn = (person, day) => from(person) <= day && day < from(person) + person.stay;
const nurseAt = (room, shift) => data.care[room][shift];
const hasChanged = (person) => "was" in person;
const longest = Math.max(1, ...people.map((person) => person.stay));

// What is asked for again and again is found once: who is in each room, who comes on each day, and what a nurse has.
const grouped = (list, count, key) => { const groups = Array.from({ length: count }, () => []); for (const one of list) groups[key(one)].push(one); return groups; };
const stayingIn = grouped(staying, data.rooms.length, (person) => person.at.room);
const comingOn = grouped(staying.filter((person) => !person.occupant), data.days, (person) => person.at.day);
const once = (find) => { let found; return () => found ??= find(); };

// Each stay of a room has the first line that is free, by first day. Without an overfull room there are as many lines as beds.
function linesOf(room) {
  const ends = [], lines = [];
  for (const person of [...stayingIn[room]].sort((one, other) => from(one) - from(other) || other.stay - one.stay)) {
    let line = ends.findIndex((end) => end <= from(person));
    if (line < 0) line = ends.push(0) - 1;
    ends[line] = from(person) + person.stay;
    (lines[line] ||= []).push(person);
  }
  while (lines.length < data.rooms[room].capacity) lines.push([]);
  return lines;
}

// What is found wrong or dear, with the things that it is about.
const ABOUT = {
  stay: ([person]) => people[person].id, care: ([person]) => people[person].id,
  roomday: ([room, day]) => `${data.rooms[room].id}, ${dayName(day)}`,
  theatreday: ([theatre, day]) => `${data.theatres[theatre].id}, ${dayName(day)}`,
  surgeonday: ([surgeon, day]) => `${data.surgeons[surgeon].id}, ${dayName(day)}`,
  roomshift: ([room, shift]) => `${data.rooms[room].id}, ${shiftName(shift)}`,
  nurseshift: ([nurse, shift]) => `${data.nurses[nurse].id}, ${shiftName(shift)}`,
};
function shiftName(shift) { return `${dayName(Math.floor(shift / 3))}, ${data.shifts[shift % 3]}`; }
const amiss = once(() => new Set(broken.flatMap(({ cell, of: [row, day] }) => ["stay", "care"].includes(cell) ? people[row] : cell === "roomday" ? stayingIn[row].filter((person) => isIn(person, day)) : [])));
const isBroken = (person) => amiss().has(person);

// What is shown now. It stands behind the '#' of the address, so that it can be kept and sent.
const view = { tab: "board", days: 7, day: 0, find: "", rule: 0, cost: 0 };
function readView() {
  const given = new URLSearchParams(location.hash.slice(1));
  view.tab = given.get("tab") || "board";
  if (view.tab === "changes" && !data.since) view.tab = "board";
  view.days = Math.max(1, Math.min(data.days, +(given.get("days") || 7)));
  view.day = Math.max(0, Math.min(data.days - 1, +(given.get("day") ?? today() ?? 0)));
  view.find = given.get("find") || "";
  view.rule = +(given.get("rule") || 0);
  view.cost = +(given.get("cost") || 0);
}
function show(change) {
  Object.assign(view, change);
  history.replaceState(null, "", "#" + new URLSearchParams({ tab: view.tab, days: view.days, day: view.day, ...(view.find ? { find: view.find } : {}), ...(view.cost ? { cost: view.cost } : {}) }));
  draw();
}
const lastShown = () => Math.min(view.day + view.days, data.days);
const shown = () => Array.from({ length: lastShown() - view.day }, (_, at) => view.day + at);
const matches = (...texts) => view.find === "" || texts.some((text) => text.toLowerCase().includes(view.find.toLowerCase()));

function drawHead() {
  const sentence = data.rules.every((count) => count === 0)
    ? make("p", {}, make("b", {}, "All rules kept. "), waiting.length === 0 ? "Nobody waits." : `${many(waiting.length, "optional patient")} ${waiting.length === 1 ? "waits" : "wait"}.`, ` Cost ${number(data.cost)}.`)
    : make("p", { class: "warn" }, "Rules are broken: ", data.rules.map((count, rule) => [count, rule]).filter(([count]) => count > 0).map(([count, rule], at) => [at ? ", " : "",
      make("a", { href: `#tab=report&rule=${rule + 1}` }, `${RULES[rule]} (${number(count)})`)]), ".");
  const parts = data.costs.map((count, cost) => ({ cost, points: count * data.weights[cost] })).filter((part) => part.points > 0);
  document.title = data.title;
  document.getElementById("head").replaceChildren(
    make("h1", {}, data.title),
    make("p", { class: "soft" }, first === null ? many(data.days, "day") : `${dayName(0)} to ${dayName(data.days - 1)} ${dateOf(data.days - 1).getUTCFullYear()}`),
    sentence,
    make("div", { class: "costbar hide-print", role: "img", "aria-label": parts.map((part) => `${COSTS[part.cost]} ${part.points}`).join(", ") },
      parts.map((part) => make("span", { style: { width: `${100 * part.points / Math.max(1, data.cost)}%`, background: SHADES[part.cost] } }))),
    make("div", { class: "legend small soft hide-print" }, parts.map((part) => make("span", {}, make("i", { style: { background: SHADES[part.cost] } }), `${COSTS[part.cost]} ${number(part.points)}`))));
  document.getElementById("foot").replaceChildren(
    make("p", {}, `Made by ih_planner from ${data.files.instance} and ${data.files.solution}${data.files.older !== null ? `, compared with ${data.files.older}` : ""}. What a browser draws is tested; the data in this file is proved.`));
}

function drawBar() {
  const tabs = [["board", "Board"], ["day", "Day"], ["theatres", "Theatres"], ["surgeons", "Surgeons"], ["nurses", "Nurses"], ...(data.since ? [["changes", "What changed"]] : []), ["waiting", "Who waits"], ["costs", "What costs most"], ["report", "Report"]];
  const spans = [[data.days, "All days"], ...[[14, "Two weeks"], [7, "Week"], [1, "Day"]].filter(([days]) => days < data.days)];
  const step = (by) => show({ day: Math.max(0, Math.min(data.days - 1, view.day + by * (view.tab === "day" ? 1 : Math.min(view.days, 7)))) });
  const button = (key, pressed, call, ...inside) => make("button", { type: "button", "data-key": key, "aria-pressed": pressed === null ? null : String(pressed), on: { click: call } }, inside);
  const isByDays = ["board", "theatres", "surgeons", "nurses"].includes(view.tab);
  const held = document.activeElement && document.activeElement.dataset.key;
  document.getElementById("bar").replaceChildren(
    make("div", { class: "tabs", role: "group", "aria-label": "views" }, tabs.map(([tab, name]) => button(tab, view.tab === tab, () => show({ tab }), name))),
    isByDays ? make("div", { class: "span", role: "group", "aria-label": "days shown" }, spans.map(([days, name]) => button(name, view.days === days, () => show({ days, day: days === data.days ? 0 : view.day }), name))) : "",
    isByDays || view.tab === "day" ? make("div", { class: "span", role: "group", "aria-label": "first day shown" }, button("earlier", null, () => step(-1), make("span", { "aria-label": "earlier" }, "‹")),
      button("today", null, () => show({ day: today() ?? 0 }), today() === null ? "First day" : "Today"), button("later", null, () => step(1), make("span", { "aria-label": "later" }, "›"))) : "",
    make("div", { class: "grow" }),
    make("input", { type: "search", id: "find", placeholder: "patient, nurse, room, surgeon", "aria-label": "find a patient, a nurse, a room or a surgeon", value: view.find, on: { input: (event) => show({ find: event.target.value }) } }));
  const again = held && [...document.querySelectorAll("#bar button")].find((one) => one.dataset.key === held);
  if (again) again.focus();
}

function dayHeads() { return shown().map((day) => make("th", { scope: "col", class: isRest(day) ? "rest" : null }, shortDay(day))); }
const cellClass = (day) => [isRest(day) ? "rest" : "", day >= data.days - longest ? "beyond" : "", day === today() ? "today" : ""].filter(Boolean).join(" ") || null;

function barOf(person) {
  const surgery = person.occupant || from(person) < view.day ? null : make("small", {}, ` ${data.theatres[person.at.theatre].id} ${data.surgeons[person.surgeon].id}`);
  const nursed = view.find !== "" && Array.from({ length: 3 * (until(person) - from(person)) }, (_, at) => nurseAt(person.at.room, 3 * from(person) + at)).filter((nurse) => nurse !== null).map((nurse) => data.nurses[nurse].id);
  const found = view.find === "" ? null : matches(person.id, data.rooms[person.at.room].id, ...(person.occupant ? [] : [data.surgeons[person.surgeon].id, data.theatres[person.at.theatre].id]), ...nursed) ? "hit" : "dim";
  const classes = ["bar", genders.indexOf(person.gender) % 2 ? "second" : "", person.occupant ? "here" : "", hasChanged(person) ? "changed" : "", isBroken(person) ? "broken" : "", found].filter(Boolean).join(" ");
  const label = `${person.id}, ${person.gender}, ${data.rooms[person.at.room].id}, ${dayName(from(person))} for ${many(person.stay, "day")}${person.mandatory ? ", must be admitted" : ""}`;
  return make("button", { class: classes, title: label, "aria-label": label, on: { click: () => showPerson(person) } },
    from(person) < view.day ? "← " : "", person.id, person.mandatory ? " ★" : "", surgery, from(person) + person.stay > lastShown() ? " →" : "");
}

// A stay is one cell; so are free days beside each other that look alike.
function lineCells(line, classes) {
  const cells = [];
  for (let day = view.day; day < lastShown();) {
    const stayOn = (day) => line.find((one) => isIn(one, day)), person = stayOn(day);
    let end = person ? Math.min(from(person) + person.stay, lastShown()) : day + 1;
    while (!person && end < lastShown() && classes[end - view.day] === classes[day - view.day] && !stayOn(end)) end += 1;
    cells.push(make("td", { class: classes[day - view.day], colspan: end - day > 1 ? end - day : null }, person ? barOf(person) : null));
    day = end;
  }
  return cells;
}

function nurseCells(room) {
  return shown().map((day) => make("td", { class: ["nurses", isRest(day) ? "rest" : ""].join(" ") }, [0, 1, 2].map((shift) => {
    const nurse = nurseAt(room, 3 * day + shift);
    const isOff = nurse !== null && data.nurses[nurse].most[3 * day + shift] === null;
    return [shift ? " · " : "", make("span", { class: isOff ? "off" : null, title: data.shifts[shift] }, nurse === null ? "–" : data.nurses[nurse].id)];
  })));
}

function drawBoard() {
  const classes = shown().map(cellClass);
  const bodies = data.rooms.map((room, at) => {
    const isWide = view.days <= 14, lines = linesOf(at).filter((line, bed) => bed < room.capacity || line.some((person) => from(person) < lastShown() && view.day < from(person) + person.stay));
    const rows = lines.map((line, bed) => make("tr", { class: [bed === 0 ? "begin" : "", bed >= room.capacity ? "over" : ""].filter(Boolean).join(" ") || null },
      bed === 0 ? make("th", { class: "room", scope: "rowgroup", rowspan: lines.length + (isWide ? 1 : 0) }, room.id, make("div", { class: "soft small" }, many(room.capacity, "bed"))) : null, lineCells(line, classes)));
    return make("tbody", { class: "one" }, rows, isWide ? make("tr", {}, nurseCells(at)) : null);
  });
  return [make("div", { class: "scroll" }, make("table", { class: "board", style: { "min-width": `${96 + shown().length * (view.days > 14 ? 34 : 92)}px` } },
    make("colgroup", {}, make("col", { style: { width: "96px" } }), shown().map(() => make("col"))),
    make("caption", { class: "unseen" }, `Rooms and beds from ${dayName(view.day)} to ${dayName(lastShown() - 1)}`),
    make("thead", {}, make("tr", {}, make("th", { class: "room", scope: "col" }, "Room"), dayHeads())), bodies)),
  make("p", { class: "soft small" }, `★ must be admitted. Dashed: there from the start. Arrows: goes on. ${genders.length > 1 ? `Plain: ${genders[0]}; striped: ${genders[1]}. ` : ""}${data.since ? "Outlined: unlike the older plan. " : ""}Red outline: breaks a rule. Hatched: the last days, which aren't to be relied on. Below each room its nurses: ${data.shifts.join(" · ")}.`)];
}

function personLine(person, ...more) { return make("li", {}, make("button", { class: "link", on: { click: () => showPerson(person) } }, person.id, person.mandatory ? " ★" : ""), make("span", { class: "soft" }, " ", ...more)); }

function drawDay() {
  const day = view.day;
  const coming = comingOn[day], inside = staying.filter((person) => isIn(person, day));
  const goingHome = staying.filter((person) => from(person) + person.stay === day + 1);
  const rooms = data.rooms.map((room, at) => ({ room, at, persons: stayingIn[at].filter((person) => isIn(person, day)) }))
    .filter(({ room, at, persons }) => matches(room.id, ...persons.map((person) => person.id), ...[0, 1, 2].map((shift) => nurseAt(at, 3 * day + shift)).filter((nurse) => nurse !== null).map((nurse) => data.nurses[nurse].id)));
  const theatres = data.theatres.map((theatre, at) => ({ theatre, list: coming.filter((person) => person.at.theatre === at) })).filter(({ theatre, list }) => theatre.minutes[day] > 0 || list.length);
  return [make("h2", {}, dayName(day)),
    make("p", {}, `${many(coming.length, "admission")}, ${many(goingHome.length, "patient")} on the last day, ${number(inside.length)} of ${many(data.rooms.reduce((sum, room) => sum + room.capacity, 0), "bed")} taken.`),
    make("div", { class: "cards" }, rooms.map(({ room, at, persons }) => make("section", { class: "card" },
      make("h3", {}, room.id, make("small", { class: persons.length > room.capacity ? "warn" : null }, `${persons.length} of ${room.capacity}`)),
      make("ul", {}, persons.map((person) => personLine(person, `${person.gender}, day ${day - from(person) + 1} of ${person.stay}`,
        !person.occupant && person.at.day === day ? `, comes, ${data.theatres[person.at.theatre].id}` : "", from(person) + person.stay === day + 1 ? ", home tomorrow" : ""))),
      make("dl", {}, [0, 1, 2].map((shift) => [make("dt", {}, data.shifts[shift]), make("dd", {}, nurseAt(at, 3 * day + shift) === null ? "–" : data.nurses[nurseAt(at, 3 * day + shift)].id)]))))),
    make("h2", {}, "Theatres"),
    make("div", { class: "cards" }, theatres.map(({ theatre, list }) => {
      const used = list.reduce((sum, person) => sum + person.minutes, 0);
      return make("section", { class: "card" }, make("h3", {}, theatre.id, make("small", { class: used > theatre.minutes[day] ? "warn" : null }, `${used} of ${theatre.minutes[day]} min`)),
        make("ul", {}, list.map((person) => personLine(person, `${person.minutes} min, ${data.surgeons[person.surgeon].id}, to ${data.rooms[person.at.room].id}`))));
    }))];
}

// What a table is that has so many rows and columns, and how wide it is if they are very many. Its rows stand by eight.
const sized = (kind, rows, columns, style) => rows * columns < 4000 ? { class: kind } : { class: `${kind} great`, style };
const bodies = (rows) => Array.from({ length: Math.ceil(rows.length / 8) }, (_, at) => make("tbody", {}, rows.slice(8 * at, 8 * at + 8)));
function loadGrid(heading, rows, cells) {
  const names = 20 + 9 * Math.max(heading.length, ...rows.map((row) => row.id.length)), days = shown().length;
  return make("div", { class: "scroll" }, make("table", sized("grid", rows.length, days, { "--names": `${names}px`, "--all": `${names + 100 * days}px` }), make("thead", {}, make("tr", {}, make("th", { scope: "col" }, heading), dayHeads())),
    bodies(rows.flatMap((row, at) => matches(row.id) ? make("tr", {}, make("th", { scope: "row" }, row.id), cells(row, at)) : []))));
}
function loadCell(day, load, most, title) {
  return make("td", { class: ["load", load > most ? "over" : "", isRest(day) ? "rest" : ""].join(" "), title }, load || most ? [make("i", { style: { width: `calc(${Math.min(100, 100 * load / Math.max(1, most, load))}% - 2px)` } }), make("b", {}, load > most ? make("span", { class: "warn" }, `${load}`) : `${load}`, make("span", { class: "soft small" }, ` / ${most}`))] : null);
}
const operated = (day, of, key) => comingOn[day].filter((person) => (key === "theatre" ? person.at.theatre : person.surgeon) === of);
function minutesOf(list) { return list.reduce((sum, person) => sum + person.minutes, 0); }
const names = (list) => list.map((person) => `${person.id} (${person.minutes} min)`).join(", ");

function drawTheatres() { return [make("h2", {}, "Minutes of surgery in each theatre, of those that it is open"), loadGrid("Theatre", data.theatres, (theatre, at) => shown().map((day) => { const list = operated(day, at, "theatre"); return loadCell(day, minutesOf(list), theatre.minutes[day], names(list)); }))]; }
function drawSurgeons() { return [make("h2", {}, "Minutes of surgery of each surgeon, of those that are allowed"), loadGrid("Surgeon", data.surgeons, (surgeon, at) => shown().map((day) => { const list = operated(day, at, "surgeon"); return loadCell(day, minutesOf(list), surgeon.minutes[day], names(list)); }))]; }

// What a nurse has in a shift: the rooms, and the workload of those who are in them.
const free = { rooms: [], load: 0, persons: 0 };
const works = once(() => {
  const all = data.nurses.map(() => []);
  data.care.forEach((nurses, room) => nurses.forEach((nurse, shift) => { if (nurse !== null) (all[nurse][shift] ||= { rooms: [], load: 0, persons: 0 }).rooms.push(room); }));
  for (const person of staying) for (let shift = 3 * from(person); shift < 3 * until(person); shift += 1) {
    const nurse = nurseAt(person.at.room, shift);
    if (nurse === null) continue;
    all[nurse][shift].load += person.loads[shift - 3 * from(person)];
    all[nurse][shift].persons += 1;
  }
  return all;
});
const shiftOf = (nurse, shift) => works()[nurse][shift] || free;
function drawNurses() {
  const days = shown(), namesOf = (rooms) => rooms.map((room) => data.rooms[room].id);
  const cells = (nurse, at) => days.flatMap((day) => [0, 1, 2].map((part) => {
    const shift = 3 * day + part, most = nurse.most[shift];
    const { rooms, load } = shiftOf(at, shift);
    if (most === null && rooms.length === 0) return make("td", { class: isRest(day) ? "rest" : null });
    const title = `${shiftName(shift)}: workload ${load} of ${most ?? "none"}; ${namesOf(rooms).join(", ") || "no room"}`;
    return make("td", { class: ["load", most === null || load > most ? "over" : "", isRest(day) ? "rest" : ""].join(" "), title },
      make("i", { style: { width: `calc(${Math.min(100, 100 * load / Math.max(1, most ?? 0, load))}% - 2px)` } }), make("b", {}, rooms.length ? namesOf(rooms).join(" ") : "·"));
  }));
  const names = 80 + 9 * Math.max(0, ...data.nurses.map((nurse) => nurse.id.length)), cell = works().flat().reduce((most, { rooms }) => Math.max(most, 12 + 9 * namesOf(rooms).join(" ").length), 60);
  return [make("h2", {}, "Nurses: their rooms in each shift; the bar is the workload, of the most that it may be"),
    make("div", { class: "scroll" }, make("table", sized("grid", data.nurses.length, 3 * days.length, { "--names": `${names}px`, "--all": `${names + 3 * days.length * cell}px` }), make("thead", {}, make("tr", {}, make("th", { scope: "col" }, "Nurse"), days.flatMap((day) => [0, 1, 2].map((part) => make("th", { scope: "col", class: isRest(day) ? "rest" : null }, part === 0 ? `${dayName(day)} ` : "", data.shifts[part]))))),
      bodies(data.nurses.flatMap((nurse, at) => matches(nurse.id) ? make("tr", {}, make("th", { scope: "row" }, nurse.id, make("span", { class: "soft small" }, ` skill ${nurse.skill}`)), cells(nurse, at)) : [])))), shareOut()];
}
function shareOut() {
  const rows = data.nurses.map((nurse, at) => {
    const row = { nurse, works: 0, withPatients: 0, over: 0, idle: 0, load: 0 };
    nurse.most.forEach((most, shift) => {
      if (most === null) return;
      const { load, persons } = shiftOf(at, shift);
      row.works += 1; row.load += load;
      if (persons) row.withPatients += 1; else row.idle += 1;
      if (load > most) row.over += 1;
    });
    return row;
  });
  const greatest = Math.max(1, ...rows.map((row) => row.load));
  return [make("h2", { class: "sheet" }, "How work is shared out"), make("table", { class: "list" }, make("thead", {}, make("tr", {}, ["Nurse", "shifts", "with patients", "nothing to do", "above the maximum", "workload"].map((name, at) => make("th", { class: at ? "n" : null, scope: "col" }, name)))),
    make("tbody", {}, rows.map((row) => make("tr", {}, make("th", { scope: "row" }, row.nurse.id), [row.works, row.withPatients, row.idle].map((count) => make("td", { class: "n" }, String(count))),
      make("td", { class: row.over ? "n warn" : "n" }, String(row.over)), make("td", {}, make("div", { class: "costbar", style: { margin: "4px 0" } }, make("span", { style: { width: `${100 * row.load / greatest}%`, background: "var(--accent)" } })))))))];
}

const placeText = (at) => at === null ? "not admitted" : `${dayName(at.day)}, ${data.rooms[at.room].id}, ${data.theatres[at.theatre].id}`;
function drawChanges() {
  const known = people.filter((person) => hasChanged(person));
  const kinds = [["Another day (tell them)", (person) => person.at && person.was && person.at.day !== person.was.day], ["Another room", (person) => person.at && person.was && person.at.day === person.was.day && person.at.room !== person.was.room],
    ["Another theatre alone", (person) => person.at && person.was && person.at.day === person.was.day && person.at.room === person.was.room], ["Came in", (person) => person.at && !person.was], ["Left out now", (person) => !person.at && person.was]];
  const moved = [];
  since.nurses.forEach((shifts, at) => shifts.forEach((was, shift) => {
    if (stayingIn[at].some((person) => isIn(person, Math.floor(shift / 3)))) moved.push({ at, shift, nurse: nurseAt(at, shift), was });
  }));
  const name = (nurse) => nurse === null ? "nobody" : data.nurses[nurse].id;
  return [make("p", {}, kinds.map(([kind, holds]) => `${kind}: ${known.filter(holds).length}`).join("; "), `; another nurse: ${many(moved.length, "shift")} of occupied rooms.`),
    kinds.map(([kind, holds]) => { const list = known.filter(holds); return list.length === 0 ? null : [make("h2", {}, `${kind}: ${list.length}`), make("table", { class: "list" }, make("thead", {}, make("tr", {}, ["Patient", "was", "is now"].map((text) => make("th", { scope: "col" }, text)))),
      make("tbody", {}, list.map((person) => make("tr", {}, make("th", { scope: "row" }, make("button", { class: "link", on: { click: () => showPerson(person) } }, person.id)), make("td", {}, placeText(person.was)), make("td", {}, placeText(person.at))))))]; }),
    billChanges(),
    moved.length === 0 ? null : [make("h2", {}, `Another nurse: ${many(moved.length, "shift")} of occupied rooms`), make("table", sized("list", moved.length, 4), make("thead", {}, make("tr", {}, ["Room", "shift", "was", "is now"].map((text) => make("th", { scope: "col" }, text)))),
      bodies(moved.map(({ at, shift, nurse, was }) => make("tr", {}, make("th", { scope: "row" }, data.rooms[at].id), make("td", {}, shiftName(shift)), make("td", {}, name(was)), make("td", {}, name(nurse))))))]];
}

// What the cost and its parts came to, and what they come to now.
function billChanges() {
  const total = (bill) => bill.rules.reduce((sum, count) => sum + count, 0);
  const rows = [["Rules broken", total(since.bill), total(given.bill)], ...COSTS.map((name, cost) => [name, since.bill.costs[cost] * data.weights[cost], data.costs[cost] * data.weights[cost]]), ["Cost", since.bill.cost, data.cost]];
  return [make("h2", {}, "Cost"), make("table", { class: "list" }, make("thead", {}, make("tr", {}, ["", "was", "is now", "more"].map((text, at) => make("th", { class: at ? "n" : null, scope: "col" }, text)))),
    make("tbody", {}, rows.map(([name, was, is]) => make("tr", {}, make("th", { scope: "row" }, name), [was, is, is - was].map((amount) => make("td", { class: "n" }, number(amount)))))))];
}

// The cheapest admission of a patient who waits.
function couldText(person) {
  const could = waits.get(person.index);
  if (!could) return "no day: no room suits, the window is empty, or there is no theatre";
  const cost = `cost ${could.cost < 0 ? "\u2212" : "+"}${number(Math.abs(could.cost))}`;
  return `${placeText(placed(could.place))}: ${could.broken === 0 ? cost : `breaks rules by ${number(could.broken)} more, ${cost}`}`;
}

function drawWaiting() {
  return [make("h2", {}, `${many(waiting.length, "patient")} not admitted`), make("table", { class: "list" }, make("thead", {}, make("tr", {}, ["Patient", "must", "from", "until", "stay", "surgeon", "minutes", "could come"].map((text) => make("th", { scope: "col" }, text)))),
    make("tbody", {}, waiting.filter((person) => matches(person.id, data.surgeons[person.surgeon].id)).map((person) => make("tr", {}, make("th", { scope: "row" }, make("button", { class: "link", on: { click: () => showPerson(person) } }, person.id)), make("td", { class: person.mandatory ? "warn" : null }, person.mandatory ? "★ must be admitted" : ""),
      make("td", {}, dayName(person.release)), make("td", {}, person.due === null ? "" : dayName(person.due)), make("td", {}, many(person.stay, "day")), make("td", {}, data.surgeons[person.surgeon].id), make("td", { class: "n" }, String(person.minutes)), make("td", {}, couldText(person))))))];
}

function findingRow(found) {
  const text = found.rule !== undefined ? RULES[found.rule] : COSTS[found.cost];
  return make("tr", { class: found.rule !== undefined && found.rule === view.rule - 1 ? "hit" : null }, make("th", { scope: "row", class: found.rule !== undefined ? "warn" : null }, text), make("td", {}, ABOUT[found.cell](found.of)), make("td", { class: "n" }, number(found.amount)), make("td", { class: "n" }, found.points === undefined ? "breaks a rule" : number(found.points)));
}
const findingHead = () => make("thead", {}, make("tr", {}, make("th", { scope: "col" }, "What"), make("th", { scope: "col" }, "where"), make("th", { class: "n", scope: "col" }, "amount"), make("th", { class: "n", scope: "col" }, "points")));
function drawCosts() {
  const dearestOf = (list) => list.sort((one, other) => other.points - one.points);
  const dearest = dearestOf(findings.filter((found) => found.points > 0)).slice(0, 10), all = dearestOf(findings.filter((found) => found.cost === view.cost - 1));
  const choice = COSTS.map((name, cost) => data.costs[cost] === 0 ? null : [" ", make("button", { type: "button", "aria-pressed": String(view.cost === cost + 1), on: { click: () => show({ cost: view.cost === cost + 1 ? 0 : cost + 1 }) } }, `${name} (${number(data.costs[cost])})`)]);
  return [make("h2", {}, "The ten dearest causes"), make("table", { class: "list" }, findingHead(), make("tbody", {}, dearest.map(findingRow))),
    make("h2", { class: "sheet" }, "All causes of one number"), make("p", {}, choice), all.length === 0 ? null : make("table", sized("list", all.length, 4), findingHead(), bodies(all.map(findingRow)))];
}
function drawReport() {
  return [broken.length === 0 ? null : [make("h2", { class: "warn" }, "What breaks rules"), make("table", { class: "list" }, findingHead(), make("tbody", {}, broken.map(findingRow)))],
    make("h2", {}, "Report"), make("table", { class: "list" }, make("thead", {}, make("tr", {}, ["Number", "amount", "weight", "points"].map((text, at) => make("th", { class: at ? "n" : null, scope: "col" }, text)))),
      make("tbody", {}, data.rules.map((count, rule) => make("tr", {}, make("th", { scope: "row", class: count ? "warn" : null }, `V${rule + 1} ${RULES[rule]}`), make("td", { class: "n" }, number(count)), make("td", {}), make("td", { class: "n" }, count ? "broken" : "kept"))),
        data.costs.map((count, cost) => make("tr", {}, make("th", { scope: "row" }, `S${cost + 1} ${COSTS[cost]}`), make("td", { class: "n" }, number(count)), make("td", { class: "n" }, number(data.weights[cost])), make("td", { class: "n" }, number(count * data.weights[cost])))),
        make("tr", {}, make("th", { scope: "row" }, "Cost"), make("td", {}), make("td", {}), make("td", { class: "n" }, make("b", {}, number(data.cost))))))];
}

function showPerson(person) {
  const facts = [["gender, age", `${person.gender}, ${data.ages[person.age]}`], ["stay", many(person.stay, "day")]];
  if (!person.occupant) facts.push(["may come", person.due === null ? `from ${dayName(person.release)}` : `${dayName(person.release)} to ${dayName(person.due)}`], ["surgery", `${data.surgeons[person.surgeon].id}, ${person.minutes} min`], ["must be admitted", person.mandatory ? "yes" : "no"]);
  if (person.at) {
    facts.push(["admitted", person.occupant ? "there from the start" : `${dayName(person.at.day)} (${many(person.at.day - person.release, "day")} after the first possible)`], ["room", data.rooms[person.at.room].id]);
    if (!person.occupant) facts.push(["theatre", data.theatres[person.at.theatre].id]);
    const nurses = new Map();
    for (let shift = 3 * from(person); shift < 3 * until(person); shift += 1) { const nurse = nurseAt(person.at.room, shift); if (nurse !== null) nurses.set(nurse, (nurses.get(nurse) || 0) + 1); }
    facts.push([many(nurses.size, "nurse"), [...nurses].sort((one, other) => other[1] - one[1]).map(([nurse, shifts]) => `${data.nurses[nurse].id} (${shifts})`).join(", ")]);
  } else facts.push(["admitted", "no"], ["could come", couldText(person)]);
  if (hasChanged(person)) facts.push(["was", placeText(person.was)]);
  const about = findings.filter((found) => ["stay", "care"].includes(found.cell) && found.of[0] === person.index);
  about.forEach((found) => facts.push([found.rule !== undefined ? RULES[found.rule] : COSTS[found.cost], found.points === undefined ? number(found.amount) : `${number(found.amount)}, ${many(found.points, "point")}`]));
  const card = document.getElementById("card");
  card.replaceChildren(make("h2", { id: "card-name", style: { margin: "0 0 4px" } }, person.id), make("dl", {}, facts.map(([name, value]) => [make("dt", {}, name), make("dd", {}, value)])), make("form", { method: "dialog" }, make("button", { autofocus: true }, "Close")));
  card.showModal();
}

const SHEETS = { board: drawBoard, day: drawDay, theatres: drawTheatres, surgeons: drawSurgeons, nurses: drawNurses, changes: drawChanges, waiting: drawWaiting, costs: drawCosts, report: drawReport };
function draw() {
  const isTyping = document.activeElement && document.activeElement.id === "find", at = isTyping ? document.activeElement.selectionStart : 0;
  drawBar();
  layOut();
  document.getElementById("sheet").replaceChildren(...[(SHEETS[view.tab] || drawBoard)()].flat(9).filter(Boolean));
  if (isTyping) { const find = document.getElementById("find"); find.focus(); find.setSelectionRange(at, at); }
}
// Sheets have the title, the dates and their number. A week of many beds is upright, other sheets lie.
const sheets = document.createElement("style");
document.head.append(sheets);
const quoted = (text) => `"${[...text].map((sign) => `\\${sign.codePointAt(0).toString(16)} `).join("")}"`;
function layOut() {
  const lines = data.rooms.reduce((sum, room) => sum + room.capacity + 1, 0), isUpright = view.tab === "board" && view.days <= 7 && lines > 44;
  const dates = ["board", "theatres", "surgeons", "nurses"].includes(view.tab) ? `${dayName(view.day)} to ${dayName(lastShown() - 1)}` : view.tab === "day" ? dayName(view.day) : "";
  sheets.textContent = `@page { size: A4 ${isUpright ? "portrait" : "landscape"}; margin: 8mm 8mm 9mm; @bottom-left { content: ${quoted(data.title)}; font: 8pt sans-serif; } @bottom-center { content: ${quoted(dates)}; font: 8pt sans-serif; } @bottom-right { content: counter(page) " / " counter(pages); font: 8pt sans-serif; } }`;
}
addEventListener("hashchange", () => { readView(); draw(); });
document.getElementById("card").addEventListener("click", (event) => { if (event.target.id === "card") event.target.close(); });
readView();
drawHead();
draw();
</script>
</body>
</html>
"###;
