//! The script of a page. The page is complete without it: it filters, sorts, and shows for a cell the grants that are in the page.

pub(crate) const SCRIPT: &str = r#"(() => {
"use strict";
const by = id => document.getElementById(id);
const table = by("matrix"), body = table.tBodies[0], heads = [...table.tHead.rows[0].cells];
const rows = [...body.rows], pools = heads.slice(1).map(it => it.textContent);
const details = row => by("e" + row.dataset.e).closest("details");
const names = rows.map(row => [...new Set((details(row).querySelector(".names") || row.cells[0].querySelector("a").firstChild).textContent.trim().split(" "))]);
const columns = document.createElement("style");
document.head.append(columns);

// A pattern with a star is for the whole of a name, any other for a part of it.
const matcher = text => {
  const words = text.trim().toLowerCase();
  if (!words.includes("*")) return name => name.toLowerCase().includes(words);
  const parts = words.split("*").map(it => it.replace(/[.+?^${}()|[\]\\]/g, "\\$&"));
  const whole = new RegExp("^" + parts.join(".*") + "$");
  return name => whole.test(name.toLowerCase());
};
const filter = () => {
  const isEntity = matcher(by("find-entity").value), isPool = matcher(by("find-pool").value);
  let shownRows = 0;
  rows.forEach((row, i) => {
    const hides = !names[i].some(isEntity);
    row.hidden = details(row).hidden = hides;
    if (!hides) shownRows += 1;
  });
  const hidden = pools.flatMap((name, i) => isPool(name) ? [] : ['#matrix tr > :nth-child(' + (i + 2) + ')']);
  columns.textContent = hidden.length ? hidden.join(",") + "{display:none}" : "";
  const shownPools = pools.length - hidden.length;
  by("count").textContent = shownRows + (shownRows === 1 ? " row, " : " rows, ") + shownPools + (shownPools === 1 ? " pool" : " pools");
};

const reach = word => word === "*" ? 99 : word.replace(/\(.*/, "").replace("-", "").length * 10 + (word.match(/\((.*)\)/) || ["", ""])[1].length;
const text = (row, i) => row.cells[i].textContent.trim();
const sort = weight => {
  const weights = new Map(rows.map((row, i) => [row, [weight(row), i]]));
  const sorted = [...rows].sort((a, b) => weights.get(b)[0] - weights.get(a)[0] || weights.get(a)[1] - weights.get(b)[1]);
  body.append(...sorted);
};
const mark = (head, way) => {
  heads.forEach(it => it.removeAttribute("aria-sort"));
  if (head) head.setAttribute("aria-sort", way);
};
const order = () => {
  const isByReach = by("order").value === "reach";
  mark(isByReach ? null : heads[0], "ascending");
  sort(isByReach ? row => [...row.cells].slice(1).filter(it => it.textContent.trim() !== "-").length : () => 0);
};
heads.forEach((head, i) => {
  const button = document.createElement("button");
  button.type = "button";
  button.textContent = head.textContent;
  button.title = head.textContent + ": sort";
  head.replaceChildren(button);
  button.addEventListener("click", () => {
    if (i === 0) { by("order").value = "name"; return order(); }
    mark(head, "descending");
    sort(row => reach(text(row, i)));
  });
});

const element = (name, content) => {
  const made = document.createElement(name);
  made.textContent = content;
  return made;
};
const explain = cell => {
  const row = cell.parentElement, i = cell.cellIndex, place = by("cell");
  const title = element("h2", row.cells[0].textContent + ", pool " + pools[i - 1] + ": " + text(row, i));
  const list = document.createElement("ul");
  for (const grant of details(row).querySelectorAll(".grants li")) {
    const of = grant.dataset.p;
    if (of !== "all" && !of.split(" ").includes(String(i - 1))) continue;
    const item = grant.cloneNode(true), pool = item.querySelector("b");
    if (pool) pool.textContent = heads[i].dataset.w;
    list.append(item);
  }
  const close = element("button", "Close");
  close.type = "button";
  close.addEventListener("click", () => { place.hidden = true; cell.focus(); });
  place.replaceChildren(title, list.children.length ? list : element("p", "No grant is for this pool."), close);
  place.hidden = false;
  place.scrollIntoView({ block: "nearest" });
};

// One cell can be reached by the Tab key, and the others from it by arrows.
let current = null;
const enter = cell => {
  if (current) current.removeAttribute("tabindex");
  current = cell;
  cell.tabIndex = 0;
};
const isShown = cell => cell && cell.localName === "td" && cell.offsetParent !== null;
const beside = (cell, key) => {
  const row = key === "ArrowUp" ? "previousElementSibling" : "nextElementSibling";
  let found = cell;
  do {
    if (key === "ArrowLeft") found = found.previousElementSibling;
    else if (key === "ArrowRight") found = found.nextElementSibling;
    else {
      const next = found.parentElement[row];
      found = next && next.cells[cell.cellIndex];
    }
  } while (found && !isShown(found));
  return found;
};
if (rows.length && pools.length) enter(rows[0].cells[1]);
body.addEventListener("keydown", event => {
  const cell = event.target.closest("td");
  if (!cell) return;
  if (event.key === "Enter" || event.key === " ") {
    event.preventDefault();
    explain(cell);
  } else if (event.key.startsWith("Arrow")) {
    event.preventDefault();
    const next = beside(cell, event.key);
    if (next) { enter(next); next.focus(); }
  }
});
body.addEventListener("click", event => {
  const cell = event.target.closest("td");
  if (cell) { enter(cell); cell.focus({ preventScroll: true }); explain(cell); }
});
document.addEventListener("keydown", event => {
  if (event.key === "Escape" && !by("cell").hidden) { by("cell").hidden = true; if (current) current.focus(); }
});

const closed = [];
addEventListener("beforeprint", () => {
  for (const it of document.querySelectorAll("details:not([open])")) { closed.push(it); it.open = true; }
});
addEventListener("afterprint", () => { for (const it of closed.splice(0)) it.open = false; });
for (const id of ["find-entity", "find-pool"]) by(id).addEventListener("input", filter);
by("order").addEventListener("change", order);
by("controls").addEventListener("submit", event => event.preventDefault());
by("controls").hidden = false;
mark(heads[0], "ascending");
filter();
})();
"#;
