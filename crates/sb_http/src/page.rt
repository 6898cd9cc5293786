//! The page of a node, for browsers: its owners, its rows, and what changed just now. It asks the node that it came from, and nobody
//! else. Whatever comes from a node is put in as text.

/// What a browser allows the page: its own script and style, by their hashes, and to ask its own node. `tools/check-node` looks at
/// the hashes.
pub(crate) const POLICY: &str =
    "default-src 'none'; script-src 'sha256-Bnj4FVOW80KHoyUZ3AbC5iJo0Z0+MduIr/49KFA5V5s='; \
     style-src 'sha256-RCZlzCfX4MB/yl9pyvZ9kw7xah8LcCjJxZQ4xbn2aoo='; \
     img-src data:; connect-src 'self'; \
     base-uri 'none'; form-action 'none'; frame-ancestors 'none'";

/// The page.
pub(crate) const PAGE: &str = r#"<!doctype html>
<html lang="en">
<meta charset="utf-8">
<meta name="viewport" content="width=device-width, initial-scale=1">
<title>attrdir</title>
<link rel="icon" href="data:,">
<style>
:root { color-scheme: light dark; --line: #8884; --soft: #8882; --good: #2a7; --bad: #c33 }
* { box-sizing: border-box }
body { margin: 0 auto; max-width: 72rem; padding: 0 .75rem 2rem; font: 15px/1.4 system-ui, sans-serif }
header { display: flex; flex-wrap: wrap; gap: .5rem 1rem; align-items: baseline; padding: .75rem 0 }
h1 { font-size: 1.2rem; margin: 0 }
h2 { font-size: 1rem; margin: 1.25rem 0 .4rem }
.state { padding: .1rem .5rem; border-radius: 1rem; background: var(--soft) }
.good { color: var(--good) }
.bad { color: var(--bad) }
form, nav { display: flex; flex-wrap: wrap; gap: .5rem; align-items: center; margin: .4rem 0 }
input, button { font: inherit; padding: .35rem .5rem; min-width: 0 }
input { flex: 1 1 9rem }
.scroll { overflow-x: auto }
table { border-collapse: collapse; width: 100% }
th, td { text-align: left; padding: .25rem .5rem; border-top: 1px solid var(--line); vertical-align: top }
td.value { overflow-wrap: anywhere; white-space: pre-wrap; min-width: 8rem }
td.number, th.number { text-align: right; font-variant-numeric: tabular-nums }
td button { border: 0; background: none; padding: 0; text-decoration: underline; cursor: pointer; color: inherit }
tr.new td { background: #2a72 }
.main { display: grid; gap: 0 1.5rem; grid-template-columns: minmax(0, 1fr) minmax(0, 2fr) }
@media (max-width: 44rem) { .main { grid-template-columns: minmax(0, 1fr) } }
ol { margin: 0; padding: 0; list-style: none; max-height: 14rem; overflow-y: auto }
li { padding: .15rem 0; border-top: 1px solid var(--line); overflow-wrap: anywhere }
</style>
<header><h1>attrdir</h1><span class="state" id="ready">…</span><span class="state" id="live">…</span></header>
<section><h2>Changed just now</h2><ol id="changes"><li>Nothing since this page was opened.</li></ol></section>
<div class="main">
<section>
<h2>Owners <span id="owner-count"></span></h2>
<form id="find"><input id="owner-part" placeholder="a part of a name" aria-label="a part of a name" autocomplete="off"></form>
<nav><button id="owners-back" type="button">‹</button><span id="owners-at"></span><button id="owners-on" type="button">›</button></nav>
<div class="scroll"><table><thead><tr><th>Owner<th class="number">Version<th class="number">Rows<th class="number">Age</tr></thead><tbody id="owners"></tbody></table></div>
</section>
<section>
<h2>Rows <span id="row-count"></span></h2>
<form id="filter">
<input id="owner" placeholder="owner, or all" aria-label="owner" autocomplete="off">
<input id="prefix" placeholder="prefix of keys, or all" aria-label="prefix" autocomplete="off">
<button>Show</button>
</form>
<nav><button id="rows-back" type="button">‹</button><span id="rows-at"></span><button id="rows-on" type="button">›</button></nav>
<div class="scroll"><table><thead><tr><th>Owner<th>Key<th>Value<th>Kind<th class="number">Version</tr></thead><tbody id="rows"></tbody></table></div>
</section>
</div>
<script>
"use strict";
// Whatever comes from a node is put in as text, never as markup.
const find = id => document.getElementById(id);
const OWNERS_SHOWN = 25, ROWS_SHOWN = 100, ROWS_READ = 5000, CHANGES_SHOWN = 50, WAIT = 25;
let owners = [], ownersAt = 0, rows = new Map(), isMore = false, seen = null, canWait = true, ownersFrom = 0, rowsFrom = 0;
let filter = { owner: "", prefix: "" }, asking = new AbortController(), fresh = new Set(), isFirst = true;

function element(name, text, kind) {
  const it = document.createElement(name);
  it.textContent = text;
  if (kind) it.className = kind;
  return it;
}

function say(id, text, kind) {
  find(id).textContent = text;
  find(id).className = "state " + (kind || "");
}

async function get(path) {
  const answer = await fetch(path, { signal: asking.signal, cache: "no-store" });
  const body = await answer.json().catch(() => ({}));
  if (answer.ok || path === "/healthz") return body;
  const error = new Error(body.error || "status " + answer.status);
  error.status = answer.status;
  throw error;
}

// ---- what is asked

function question(more) {
  const words = [];
  if (filter.owner) words.push("owner=" + encodeURIComponent(filter.owner));
  if (filter.prefix) words.push("prefix=" + encodeURIComponent(filter.prefix));
  return "/v1/rows?" + words.concat(more).join("&");
}

// The first page of the rows: once one of them changes, or at once if the node does not wait.
async function firstPage() {
  if (canWait) {
    try {
      const wait = seen === null ? ["wait=0s"] : ["wait=" + WAIT + "s", "seen=" + encodeURIComponent(seen)];
      return await get(question(wait));
    } catch (error) {
      if (error.status === 400) canWait = false;
      else if (error.status !== 503) throw error;
    }
  }
  if (!isFirst) await pause(700);
  return get(question([]));
}

async function allRows() {
  let page = await firstPage();
  const mark = page.seen === undefined ? null : page.seen, found = new Map();
  for (;;) {
    for (const row of page.rows) found.set(row.owner + "/" + row.key, row);
    if (!page.more || found.size >= ROWS_READ) break;
    const last = page.rows[page.rows.length - 1];
    page = await get(question(["after=" + encodeURIComponent(last.owner + "/" + last.key)]));
  }
  return { found, mark, more: page.more };
}

// ---- what is shown

function shown(row) { return row.kind + " " + row.value; }

function note(sign, row, text) {
  const list = find("changes"), item = element("li", "");
  if (!find("changes").dataset.used) { list.textContent = ""; list.dataset.used = "1"; }
  item.append(element("span", new Date().toLocaleTimeString() + " "), element("b", sign + " "), element("span", row.owner + "/" + row.key + text));
  list.prepend(item);
  while (list.children.length > CHANGES_SHOWN) list.lastChild.remove();
}

function compare(found) {
  fresh = new Set();
  for (const [place, row] of found) {
    const before = rows.get(place);
    if (before && before.version === row.version && shown(before) === shown(row)) continue;
    fresh.add(place);
    note(before ? "changed" : "new", row, ": " + shown(row));
  }
  for (const [place, row] of rows) if (!found.has(place)) note("gone", row, "");
}

function part(list, from, count, at, back, on) {
  const start = Math.max(0, Math.min(from, Math.floor((list.length - 1) / count) * count));
  find(at).textContent = list.length ? (start + 1) + " to " + Math.min(start + count, list.length) + " of " + list.length : "none";
  find(back).disabled = start === 0;
  find(on).disabled = start + count >= list.length;
  return start;
}

function showRows() {
  const list = [...rows];
  rowsFrom = part(list, rowsFrom, ROWS_SHOWN, "rows-at", "rows-back", "rows-on");
  find("row-count").textContent = isMore ? "(the first " + list.length + "; a prefix shows others)" : "";
  find("rows").replaceChildren(...list.slice(rowsFrom, rowsFrom + ROWS_SHOWN).map(([place, row]) => {
    const line = element("tr", "", fresh.has(place) ? "new" : "");
    line.append(element("td", row.owner), element("td", row.key), element("td", String(row.value), "value"), element("td", row.kind), element("td", String(row.version), "number"));
    return line;
  }));
}

// The age that an owner has by now, in the largest unit of which it has two. A node knows none of an owner that it has not heard.
function ageText(age) {
  if (age === undefined) return "";
  const seconds = Math.floor((age + performance.now() - ownersAt) / 1000);
  for (const [unit, size] of [["d", 86400], ["h", 3600], ["min", 60]]) if (seconds >= 2 * size) return Math.floor(seconds / size) + " " + unit;
  return seconds + " s";
}

// Shows how the owners grow older, until the node is asked again.
function growOlder() {
  for (const cell of document.querySelectorAll("[data-age]")) cell.textContent = ageText(Number(cell.dataset.age));
}

function showOwners() {
  const text = find("owner-part").value.trim(), list = owners.filter(it => it.owner.includes(text));
  ownersFrom = part(list, ownersFrom, OWNERS_SHOWN, "owners-at", "owners-back", "owners-on");
  find("owner-count").textContent = "(" + owners.length + ")";
  find("owners").replaceChildren(...list.slice(ownersFrom, ownersFrom + OWNERS_SHOWN).map(held => {
    const line = element("tr", ""), name = element("button", held.owner), cell = element("td", ""), age = element("td", ageText(held.age), "number");
    name.type = "button";
    name.addEventListener("click", () => { find("owner").value = held.owner; choose(); });
    cell.append(name);
    if (held.age !== undefined) age.dataset.age = held.age;
    line.append(cell, element("td", String(held.version), "number"), element("td", String(held.rows), "number"), age);
    return line;
  }));
}

// ---- over and over

function pause(time) { return new Promise(done => setTimeout(done, time)); }

function choose(event) {
  if (event) event.preventDefault();
  filter = { owner: find("owner").value.trim(), prefix: find("prefix").value.trim() };
  seen = null, isFirst = true, rowsFrom = 0;
  asking.abort();
  asking = new AbortController();
}

async function turn() {
  const mine = asking;
  try {
    const { found, mark, more } = await allRows();
    if (mine !== asking) return;
    if (!isFirst) compare(found);
    rows = found, isMore = more, seen = mark, isFirst = false;
    showRows();
    const health = await get("/healthz");
    owners = (await get("/v1/owners")).owners;
    ownersAt = performance.now();
    showOwners();
    say("ready", health.ready ? "ready" : "not ready", health.ready ? "good" : "bad");
    say("live", "live", "good");
  } catch (error) {
    if (mine !== asking) return;
    say("live", error.status === 400 ? error.message : "no answer: " + error.message, "bad");
    await pause(1500);
  }
}

async function follow() { for (;;) await turn(); }

find("filter").addEventListener("submit", choose);
find("find").addEventListener("submit", event => event.preventDefault());
find("owner-part").addEventListener("input", () => { ownersFrom = 0; showOwners(); });
for (const [id, move] of [["owners-back", -OWNERS_SHOWN], ["owners-on", OWNERS_SHOWN]]) find(id).addEventListener("click", () => { ownersFrom += move; showOwners(); });
for (const [id, move] of [["rows-back", -ROWS_SHOWN], ["rows-on", ROWS_SHOWN]]) find(id).addEventListener("click", () => { rowsFrom += move; showRows(); });
setInterval(growOlder, 1000);
follow();
</script>
</html>
"#;
