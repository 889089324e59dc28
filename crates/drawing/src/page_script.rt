//! The script of pages, in JavaScript. It reads the report that is in the page, and shows what the
//! words of memory are at a turn.

/// The script.
pub(crate) const SCRIPT: &str = r##"
"use strict";
// A run is a list of turns. A turn changes one word at most and says what the word held before, so
// going back is as cheap as going forward. Values may be larger than the numbers of JavaScript are
// exact: they stay texts.

// ---- The report ----

const rows = document.getElementById("report").textContent.trim().split("\n").map((row) => row.split(","));
const isTree = rows[0][2] === "tree";
const [passes, , scxShare] = rows[1].slice(1).map(Number);
// Of each client its calls, the one that it is in, and for which SCX-records it has worked up to a turn.
const clientOf = (number) => ({ number, calls: [], begun: 0, open: null, scx: 0, works: [0] });
const clients = Array.from({ length: passes }, (_, number) => clientOf(number));
const stranger = clientOf(0); // whose turns only an unlawful report has
const turns = [];
const entries = [];
const moments = [];

// The words that do not begin as 0.
const opening = new Map(
  isTree ? [["n0.head", "2"], ["n0.left", "1"], ["n0.right", "2"], ["n1.head", "13"], ["n2.head", "14"]] : [],
);
opening.set("s0.state", "2");
const memory = new Map();
const read = (word) => memory.get(word) ?? opening.get(word) ?? "0";
const number = (word) => Number(read(word));

const SIGNS = new Set(["freeze", "frozen", "mark", "update", "commit", "abort"]);
const ownerOf = (scx) => (scx === 0 ? null : clients[Math.floor((scx - 1) / scxShare)]);
const callOf = (scx) => ownerOf(scx)?.calls[number(`s${scx}.call`)];
const inProgress = (scx) => scx !== 0 && read(`s${scx}.state`) === "0";
const textOf = ([, client, place, name, ...fields]) =>
  `${name} ${name === "scx" ? fields.join(" | ") : fields.filter((field) => field !== "").join(" ")}`;

// What the plan of an SCX-record says: its nodes, those that it retires, and the field that it changes.
function planOf(scx) {
  const plan = number(`s${scx}.plan`);
  const nodes = Array.from({ length: plan & 7 }, (_, at) => number(`s${scx}.v${at}`));
  const side = (plan >> 9) & 1 ? "right" : "left";
  const retired = nodes.filter((_, at) => (plan >> (3 + at)) & 1);
  return { nodes, retired, field: `n${nodes[(plan >> 7) & 3]}.${side}` };
}

// The nodes of a fresh subtree that no entry has put in before.
const seen = new Set(isTree ? [0, 1, 2] : []);
function freshFrom(node) {
  const fresh = new Set();
  const left = [node];
  while (left.length > 0) {
    const next = left.pop();
    if (seen.has(next)) continue;
    seen.add(next);
    fresh.add(next);
    if (isTree && !headOf(next).leaf) left.push(number(`n${next}.left`), number(`n${next}.right`));
  }
  return fresh;
}

function headOf(node) {
  const head = number(`n${node}.head`);
  return { level: head >> 3, leaf: (head & 4) !== 0, class: head & 3 };
}

function begin(client, turn) {
  client.open = client.calls[client.begun++] ?? { client: client.number, text: "", begin: turn };
  client.open.begin = turn;
  return client.open;
}

function addStep([, place, of, kind, word, before, after]) {
  const client = clients[of] ?? stranger;
  const turn = { place: turns.length + 1, client, kind, word, before, after, scx: 0, call: null };
  turns.push(turn);
  if (kind === "idle") return;
  turn.begins = client.open === null;
  turn.call = client.open ?? begin(client, turn.place);
  turn.call.end = turn.place;
  const isOfScx = word.startsWith("s") && kind !== "state";
  if (isOfScx) client.scx = parseInt(word.slice(1), 10);
  if (isOfScx || SIGNS.has(kind)) turn.scx = client.scx;
  turn.works = client.scx;
  turn.changes = before !== after;
  memory.set(word, after);
}

function addEntry([, place, , scx, client, call]) {
  const turn = turns.at(-1);
  if (!turn) return;
  const record = Number(scx.slice(1));
  const entry = { place, turn: turn.place, call: clients[client]?.calls[call], word: turn.word };
  entry.old = Number(turn.before);
  entry.fresh = freshFrom(Number(turn.after));
  entry.retired = new Set(planOf(record).retired);
  if (entry.call) entry.call.entry = entry;
  turn.entry = entry;
  entries.push(entry);
  moments.push({ turn: turn.place, reads: false, call: entry.call });
}

function addReply([, of, , , , moment, answer]) {
  const client = clients[of] ?? stranger;
  const turn = turns.at(-1);
  if (!turn) return;
  const call = client.open ?? begin(client, turn.place);
  client.open = null;
  Object.assign(call, { end: turn.place, moment: Number(moment), answer, answered: turn.place });
  turn.begins ||= call.begin === turn.place;
  turn.call = call;
  turn.ends = true;
  if (moment !== "" && !call.entry) moments.push({ turn: Number(moment), reads: true, call });
}

const readers = {
  call: (row) => clients[row[1]].calls.push({ client: Number(row[1]), text: textOf(row) }),
  step: addStep,
  log: addEntry,
  reply: addReply,
};
for (const row of rows) readers[row[0]]?.(row);
memory.clear();
moments.sort((one, other) => one.turn - other.turn || one.reads - other.reads);
const callers = clients.filter((client) => client.begun > 0 || client.calls.length > 0);
const allCalls = clients.flatMap((client) => client.calls.filter((call) => call.begin));
const answered = allCalls.filter((call) => call.answered).map((call) => call.answered).sort((a, b) => a - b);
const lastTurn = turns.length;

// How many items of a list, in the order of their turns, there are up to this turn.
function countTo(list, turn, turnOf) {
  let [low, high] = [0, list.length];
  while (low < high) {
    const middle = (low + high) >> 1;
    if (turnOf(list[middle]) <= turn) low = middle + 1;
    else high = middle;
  }
  return low;
}

// ---- The turn that is shown ----

let now = 0;
let pinned = null;
let version = 0; // rises with each change of a word

function write(word, held) {
  memory.set(word, held);
  version++;
}

function forward() {
  const turn = turns[now++];
  if (turn.changes) write(turn.word, turn.after);
  if (turn.works !== undefined) turn.client.works.push(turn.works);
}

function back() {
  const turn = turns[--now];
  if (turn.changes) write(turn.word, turn.before);
  if (turn.works !== undefined) turn.client.works.pop();
}

function go(turn) {
  const wanted = Math.max(0, Math.min(lastTurn, turn));
  while (now < wanted) forward();
  while (now > wanted) back();
  show();
}

// The next turn in this direction of which this holds; else the last one there.
function find(direction, holds) {
  let turn = now + direction;
  while (turn > 0 && turn < lastTurn && !holds(turns[turn - 1])) turn += direction;
  return turn;
}

const ofKind = (kind) => (turn) => turn.kind === kind;

// ---- In words ----

const REFERENCES = /\.(left|right|new|old|v\d)$/;
const INFOS = /\.(info|i\d)$/;
const STATES = ["in progress", "committed", "aborted"];
const YES = ["no", "yes"];

// What a word holds, as one reads it.
function meaning(word, held) {
  if (REFERENCES.test(word)) return held === "0" && !isTree ? "0" : `n${held}`;
  if (INFOS.test(word)) return `s${held}`;
  if (word.endsWith(".state")) return STATES[held] ?? held;
  if (/\.(marked|allfrozen)$/.test(word)) return YES[held] ?? held;
  if (word.endsWith(".head")) {
    return `${held & 4 ? "leaf" : "fork"} of class ${held & 3} on level ${held >> 3}`;
  }
  return held;
}

const ACTIONS = {
  fill: ({ word, after }) => `writes ${meaning(word, after)} into ${word}`,
  settled: ({ word, before }) => `reads ${word}: ${meaning(word, before)}`,
  child: ({ word, before }) => `reads ${word}: ${meaning(word, before)}`,
  info: ({ word, before }) => `reads for whom ${nodeOf(word)} was frozen last: s${before}`,
  state: ({ word, before }) => `reads the state of ${nodeOf(word)}: ${STATES[before]}`,
  marked: ({ word, before }) => `reads whether ${nodeOf(word)} is retired: ${YES[before]}`,
  allfrozen: ({ word, before }) => `reads whether ${nodeOf(word)} has frozen all its nodes: ${YES[before]}`,
  freeze({ word, before, scx, changes }) {
    if (changes) return `freezes ${nodeOf(word)}`;
    if (Number(before) === scx) return `finds ${nodeOf(word)} frozen for s${scx} already`;
    return `cannot freeze ${nodeOf(word)}, finds s${before} there`;
  },
  frozen: ({ scx, changes }) => `notes ${changes ? "" : "once more "}that all nodes of s${scx} are frozen`,
  mark: ({ word, changes }) => `retires ${nodeOf(word)}${changes ? "" : " once more"}`,
  update({ word, before, after, changes }) {
    if (changes) return `puts ${meaning(word, after)} in place of ${meaning(word, before)} into ${word}`;
    return `finds ${word} changed already`;
  },
  commit: ({ scx, changes }) => (changes ? `commits s${scx}` : `finds s${scx} committed already`),
  abort: ({ scx, changes }) => (changes ? `aborts s${scx}` : `finds s${scx} aborted already`),
};

const nodeOf = (word) => word.split(".")[0];

// A turn as a sentence.
function sentence(turn) {
  const who = `client ${turn.client.number}`;
  if (turn.kind === "idle") {
    if (!turn.call) return `${who} has no call left`;
    return `${who} answers ${turn.call.text} without a step: ${turn.call.answer}`;
  }
  const action = ACTIONS[turn.kind]?.(turn) ?? `${turn.kind} ${turn.word}`;
  const owner = ownerOf(turn.scx);
  const helps = owner && owner !== turn.client;
  const begins = turn.begins ? `${who} begins ${turn.call.text}: ` : "";
  let text = `${begins || `${who}, ${turn.call.text}: `}${action}`;
  if (helps) {
    const call = callOf(turn.scx)?.text ?? "call";
    text = `${begins || who} helps s${turn.scx}: ${action} for client ${owner.number}'s ${call}`;
  }
  if (turn.entry) text += `; this is entry ${turn.entry.place} of the log`;
  if (turn.ends) text += `; it answers ${turn.call.answer}`;
  if (turn.ends && turn.call.moment) text += `, as of turn ${turn.call.moment}`;
  return text;
}

// Elements of SVG.
const rect = (x, y, across, high, kind, inner = "") =>
  `<rect x="${x}" y="${y}" width="${across}" height="${high}" rx="4" class="${kind}">${inner}</rect>`;
const label = (x, y, kind, text) => `<text x="${x}" y="${y}" class="${kind}">${text}</text>`;
const sign = (name, x, y, kind) => `<use href="#${name}" x="${x}" y="${y}" class="${kind}"/>`;
const svg = (across, high, name, inner, scale = 1) =>
  `<svg width="${scale * across}" height="${scale * high}" viewBox="0 0 ${across} ${high}"` +
  ` role="img" aria-label="${name}">${inner}</svg>`;

const escape = (text) => String(text).replace(/[&<>"]/g, (letter) => `&#${letter.charCodeAt(0)};`);
const colourOf = (client) => `c${client % 7}`;
const chip = (client) =>
  `<svg class="chip" viewBox="0 0 10 10" aria-hidden="true">${rect(0, 0, 10, 10, colourOf(client))}</svg>`;
const short = (digits) => (digits.length < 7 ? digits : `${digits.slice(0, 2)}…${digits.slice(-3)}`);

// ---- The lanes ----

// Where each turn begins from left to right, and where the last one ends.
function widthOf({ kind, word }) {
  if (!SIGNS.has(kind)) return kind === "idle" ? 10 : 4;
  return word.startsWith("n") ? Math.max(18, 5 * nodeOf(word).length + 4) : 18;
}
const spots = new Float64Array(lastTurn + 1);
turns.forEach((turn, at) => (spots[at + 1] = spots[at] + widthOf(turn)));
const [LABELS, BOX, BELOW] = [16, 22, 30];
const lanes = document.getElementById("lanes");
const foot = 18 + callers.length * (LABELS + BOX + BELOW);
const topOf = (lane) => 18 + lane * (LABELS + BOX + BELOW);
let [wide, left, shift, drawnFrom, drawnTo] = [0, 0, 0, 0, -1];

// The turn at so many pixels from the first one.
function turnAt(x) {
  return Math.min(lastTurn, Math.max(1, countTo(spots, x, (spot) => spot)));
}

// Puts the turn into the middle. What has been drawn is moved, as long as it reaches as far as one sees.
function drawLanes() {
  const room = wide - left - 8;
  const cursor = now === 0 ? 0 : (spots[now - 1] + spots[now]) / 2;
  shift = Math.max(0, Math.min(cursor - room / 2, spots[lastTurn] - room));
  if (shift < drawnFrom || drawnTo < shift + room) drawPart(Math.max(0, shift - wide), shift + 2 * wide);
  const parts = ["moving", "labels", "veil", "cursor"];
  const [moving, labels, veil, frame] = parts.map((name) => lanes.querySelector(`.${name}`));
  moving.setAttribute("transform", `translate(${left - shift} 0)`);
  const [begin, end] = now === 0 ? [-9, -9] : [spots[now - 1], spots[now]];
  veil.setAttribute("x", Math.max(0, end) + 1);
  frame.setAttribute("x", begin - 1);
  frame.setAttribute("width", end - begin + 2);
  put(labels, callers.map((client, lane) => drawLabels(client, topOf(lane) + LABELS - 4, room)).join(""));
}

// Draws the turns from there to there.
function drawPart(from, to) {
  [drawnFrom, drawnTo] = [from, to];
  const [first, last] = [Math.max(1, turnAt(from)), turnAt(to)];
  const [bands, names, calls] = [[], [], []];
  callers.forEach((client, lane) => {
    const top = topOf(lane);
    const tall = LABELS + BOX + BELOW - 2;
    bands.push(rect(0, top, wide, tall, "lane"));
    calls.push(drawCalls(client, top + LABELS, first, last), drawTurns(client, top + LABELS, first, last));
    names.push(rect(-4, top, left + 1, tall, "lane"));
    names.push(rect(4, top + LABELS, 6, BOX, colourOf(client.number)));
    names.push(label(13, top + LABELS + 15, "", `${wide < 600 ? "c" : "client "}${client.number}`));
  });
  names.push(rect(-4, 0, left + 1, 18, "page"), rect(-4, foot, left + 1, 20, "page"));
  const veil = rect(0, 0, spots[lastTurn] + wide, foot + 20, "page veil");
  const cursor = rect(0, 15, 0, foot - 14, "cursor");
  const moving = [drawNumbers(first, last), ...calls, drawMoments(first, last), '<g class="labels"></g>', veil, cursor];
  const all = `${bands.join("")}<g class="moving">${moving.join("")}</g>${names.join("")}`;
  lanes.innerHTML = svg(wide, foot + 20, "Lanes", all);
}

function drawNumbers(first, last) {
  let [text, free] = ["", -1];
  for (let turn = first; turn <= last; turn++) {
    if (turn !== 1 && turn % 10 !== 0) continue;
    const x = (spots[turn - 1] + spots[turn]) / 2;
    text += `<path class="tick" d="M${x} 12v4"/>`;
    if (x < free) continue;
    text += label(x, 10, "small quiet middle", turn);
    free = x + 36;
  }
  return text;
}

// The boxes of a client's calls.
function drawCalls(client, top, first, last) {
  return client.calls.filter((call) => call.begin <= last && first <= call.end).map((call) => {
    const [x, right] = [spots[call.begin - 1], spots[call.end]];
    const kind = `${colourOf(client.number)} call${call.answered ? "" : " open"}`;
    return rect(x, top, right - x, BOX, kind, `<title>${escape(labelOf(call))}</title>`);
  }).join("");
}

const labelOf = (call) => `${call.text} → ${call.answer ?? "…"}`;

// The labels of the calls that one sees, each cut off where the next call begins.
function drawLabels(client, y, room) {
  return client.calls.map((call, at) => {
    if (!call.begin || spots[call.end] < shift || shift + room < spots[call.begin - 1]) return "";
    const next = client.calls[at + 1]?.begin;
    const x = Math.max(spots[call.begin - 1], shift) + 3;
    const letters = Math.floor(((next ? spots[next - 1] : shift + room) - x) / 6.1);
    if (letters < 3) return "";
    const text = labelOf(call);
    const part = text.length > letters ? `${text.slice(0, letters - 1)}…` : text;
    return label(x, y, colourOf(client.number), escape(part));
  }).join("");
}

// A client's steps: loads and fills as ticks, the others as signs.
function drawTurns(client, top, first, last) {
  let [loads, fills, text] = ["", "", ""];
  for (let at = first; at <= last; at++) {
    const turn = turns[at - 1];
    if (turn.client !== client) continue;
    const [x, y] = [(spots[at - 1] + spots[at]) / 2, top + BOX / 2];
    if (turn.kind === "fill") fills += `M${x} ${y - 7}v14`;
    else if (turn.kind === "idle") text += sign("idle", x, y, "quiet");
    else if (SIGNS.has(turn.kind)) text += drawSign(turn, x, y);
    else loads += `M${x} ${y - 4}v8`;
  }
  return `<path class="tick" d="${loads}"/><path class="fill" d="${fills}"/>${text}`;
}

function drawSign(turn, x, y) {
  const owner = ownerOf(turn.scx) ?? turn.client;
  const colour = colourOf(owner.number);
  const helps = owner !== turn.client;
  const wide = spots[turn.place] - spots[turn.place - 1];
  let text = helps ? rect(x - wide / 2, y - BOX / 2, wide, BOX, `${colour} help`) : "";
  text += sign(turn.kind, x, y, `${colour}${turn.changes ? "" : " hollow"}`);
  if (turn.kind === "freeze" || turn.kind === "mark") text += label(x, y + 20, "small quiet middle", nodeOf(turn.word));
  if (helps) text += label(x, y + 29, `small middle ${colour}`, `c${owner.number}`);
  return text;
}

// The legal order below the lanes: a full dot is an update, a hollow one a reading.
function drawMoments(first, last) {
  let text = "";
  const from = countTo(moments, first - 1, (moment) => moment.turn);
  for (let at = from; at < moments.length && moments[at].turn <= last; at++) {
    const { turn, reads, call } = moments[at];
    const lane = callers.findIndex((client) => client.number === call?.client);
    if (lane < 0) continue;
    const x = (spots[turn - 1] + spots[turn]) / 2;
    const colour = colourOf(call.client);
    text += `<path class="${colour} dots" d="M${x} ${topOf(lane) + LABELS + BOX}V${foot + 4}"/>`;
    text += sign("moment", x, foot + 7, `${colour}${reads ? " hollow" : ""}`);
    text += label(x + 5, foot + 11, "small", at + 1);
  }
  return text;
}

// ---- The tree, and what it spells ----

const MOST_DRAWN = 600;

// The nodes that the fields lead to, from left to right, and the pairs in their leaves.
function walk() {
  const [reached, pairs, left] = [new Set(), [], [0]];
  while (left.length > 0) {
    const node = left.pop();
    if (reached.has(node)) continue;
    reached.add(node);
    const head = headOf(node);
    if (!head.leaf) left.push(number(`n${node}.right`), number(`n${node}.left`));
    else if (head.class === 0) pairs.push(...pairsOf(node));
  }
  return { reached, pairs };
}

function pairsOf(node) {
  const slots = ["", "1", "2", "3"].slice(0, 1 + number(`n${node}.more`));
  return slots.map((slot) => ({ key: read(`n${node}.key${slot}`), value: valueOf(node, slot) }));
}

// A value is the low half and 2^64 times the high one.
function valueOf(node, slot) {
  const high = read(`n${node}.high${slot}`);
  const low = read(`n${node}.value${slot}`);
  return high === "0" ? low : String((BigInt(high) << 64n) + BigInt(low));
}

// Gives each node a place: a fork stands between its two sides, and beside a new subtree the nodes that
// the update took out, as long as it is one of the newest three.
function layOut(reached) {
  const count = countTo(entries, now, (entry) => entry.turn);
  const ghosts = new Map();
  for (let age = 2; age >= 0; age--) {
    const entry = entries[count - 1 - age];
    if (entry) ghosts.set(entry.word, { node: entry.old, age, retired: entry.retired });
  }
  const [nodes, edges, lastOn] = [[], [], []];
  let x = 0;
  function below(above, level, ghost) {
    const points = [];
    const grow = (side) => {
      const word = `n${above.node}.${side}`;
      const node = number(word);
      if (!ghost || (ghost.retired.has(node) && !reached.has(node))) points.push(place(node, level, ghost));
      const taken = ghost ? undefined : ghosts.get(word);
      const isGone = taken?.retired.has(taken.node) && !reached.has(taken.node);
      // No fork stands between the new nodes and these, so they need room of their own.
      if (isGone) x += 16;
      if (isGone) points.push(place(taken.node, level, taken));
    };
    grow("left");
    x = Math.max(x, (lastOn[above.level] ?? -42) + 42);
    above.x = x;
    lastOn[above.level] = x;
    x += 26;
    grow("right");
    points.forEach((point) => point && edges.push([above, point]));
  }
  function place(node, level, ghost) {
    if (nodes.length >= MOST_DRAWN) return null;
    const spot = { node, level, ghost, x: 0 };
    nodes.push(spot);
    if (headOf(node).leaf) {
      x = Math.max(x, (lastOn[level] ?? -42) + 42);
      spot.x = x;
      lastOn[level] = x;
      x += 26;
    } else below(spot, level + 1, ghost);
    return spot;
  }
  place(0, 0, null);
  return { nodes, edges, fresh: entries[count - 1]?.fresh };
}

// How a node is drawn: in the colour of the SCX-record that it is frozen for, dashed once it is retired.
function classOf(node, fresh) {
  const scx = number(`n${node}.info`);
  const dash = read(`n${node}.marked`) === "1" ? " dash" : "";
  if (inProgress(scx)) return `${colourOf(ownerOf(scx)?.number ?? 0)} tint${dash}`;
  return dash ? "final" : fresh ? "new" : "node";
}

let drawn = [];
const spotOf = new Map();

let drawnVersion = -1;

function drawTree() {
  if (drawnVersion === version) return;
  drawnVersion = version;
  const { reached, pairs } = walk();
  const { nodes, edges, fresh } = layOut(reached);
  drawn = nodes.map((spot) => spot.node);
  const place = ({ x, level }) => [x + 24, level * 42 + 24];
  let [text, high, across] = ["", 0, 0];
  for (const [above, under] of edges) {
    const gone = under.ghost ? ` gone${under.ghost.age || ""}` : "";
    text += `<path class="edge${gone}${under.ghost ? " dash" : ""}" d="M${place(above)}L${place(under)}"/>`;
  }
  for (const spot of nodes) {
    const [x, y] = place(spot);
    const lines = linesOf(spot.node);
    const tall = headOf(spot.node).leaf ? 4 + 20 * lines.length : 16;
    const top = headOf(spot.node).leaf ? y - 12 : y - 8;
    [high, across] = [Math.max(high, top + tall), Math.max(across, x)];
    const gone = spot.ghost ? `gone${spot.ghost.age || ""}` : "";
    const name = label(x, top - 3, "small quiet middle", `n${spot.node}`);
    const boxes = ["page", classOf(spot.node, fresh?.has(spot.node))].map((kind) => rect(x - 18, top, 36, tall, kind));
    const pairs = lines.map(([key, value], at) => {
      if (value === undefined) return label(x, y + 3, "small middle", key);
      return label(x, y + 20 * at - 2, "small middle", key) + label(x, y + 20 * at + 8, "small quiet middle", value);
    });
    const inner = [ring(x - 21, top - 3, 42, tall + 6), ...boxes, name, ...pairs].join("");
    text += `<g data-name="n${spot.node}" class="${gone}">${inner}</g>`;
  }
  [across, high] = [across + 30, high + 8];
  const scale = Math.max(1, Math.min(1.6, shapeWide / across));
  spotOf.clear();
  for (const spot of nodes) spotOf.set(`n${spot.node}`, place(spot).map((along) => scale * along));
  put(shape, svg(across, high, "The tree", text, scale));
  const items = pairs.map(({ key, value }) => `<li>${key} → ${value}</li>`);
  put(pairList, items.join("") || "no pair");
}

// What is written into a node: each pair of a leaf, the key of a fork, or its class.
function linesOf(node) {
  const head = headOf(node);
  if (head.class !== 0) return [[`∞${head.class}`]];
  if (!head.leaf) return [[short(read(`n${node}.key`))]];
  return pairsOf(node).map(({ key, value }) => [short(key), short(value)]);
}

const stepName = () => (now > 0 && turns[now - 1].kind !== "idle" ? nodeOf(turns[now - 1].word) : null);
const pointedName = () => pinned ?? stepName();
const ring = (x, y, across, high) => rect(x, y, across, high, "ring");

// Where the node is drawn that is pointed at, or the last one that the client of the step has looked at.
function spotNow() {
  if (pinned) return spotOf.get(pinned);
  for (let at = now; at > 0 && now - at < 100; at--) {
    const spot = turns[at - 1].client === turns[now - 1].client && spotOf.get(nodeOf(turns[at - 1].word));
    if (spot) return spot;
  }
  return undefined;
}

// Rings the node that is pointed at, and brings it into sight.
function drawRing() {
  shape.querySelector(".pointed")?.classList.remove("pointed");
  const name = pointedName();
  const node = name && shape.querySelector(`[data-name="${name}"]`);
  node?.classList.add("pointed");
  const spot = spotNow();
  if (!spot) return;
  const [x, y] = spot;
  const tall = shape.clientHeight;
  if (x < shape.scrollLeft || shape.scrollLeft + shapeWide < x + 20) shape.scrollLeft = x - shapeWide / 2;
  if (y < shape.scrollTop || shape.scrollTop + tall < y + 20) shape.scrollTop = y - tall / 2;
}

// ---- Cells ----

const callRows = rows.filter((row) => row[0] === "call");
const named = isTree ? [] : callRows.flatMap((row) => row[4].split(" ").map(Number));
const cells = [...new Set(named)].sort((one, other) => one - other);

function drawCells() {
  drawn = cells;
  const across = Math.max(1, Math.floor((shapeWide - 12) / 140));
  const text = cells.map((cell, at) => {
    const [x, y] = [6 + 140 * (at % across), 20 + 52 * Math.floor(at / across)];
    const fields = ["left", "right"].map((side, right) => {
      const held = read(`n${cell}.${side}`);
      const isNew = now > 0 && turns[now - 1].entry?.word === `n${cell}.${side}`;
      const boxes = ["page", classOf(cell, isNew)].map((kind) => rect(x + 62 * right, y, 62, 18, kind));
      const text = held === "0" ? "0" : `n${held}: ${short(read(`n${held}.value`))}`;
      return boxes.join("") + label(x + 62 * right + 31, y + 12, "small middle", text);
    });
    const retired = read(`n${cell}.marked`) === "1" ? " final" : "";
    const name = label(x, y - 5, "small quiet", `n${cell}${retired}`);
    return `<g data-name="n${cell}">${ring(x - 3, y - 3, 130, 24)}${name}${fields.join("")}</g>`;
  });
  put(shape, svg(6 + 140 * across, 20 + 52 * Math.ceil(cells.length / across), "The cells", text.join("")));
}

// ---- What stands beside ----

const PAIR_WORDS = ["", "1", "2", "3"].flatMap((slot) => [`key${slot}`, `value${slot}`, `high${slot}`]);
const NODE_WORDS = ["head", "more", ...PAIR_WORDS, "left", "right", "info", "marked"];
const SCX_WORDS = "state allfrozen plan new old v0 v1 v2 v3 i0 i1 i2 i3 call".split(" ");

// Words that say nothing: the other pairs of a leaf, the pairs of a fork, the fields of a leaf.
function isSaid(name, part) {
  const slot = Number(/\d$/.exec(part)?.[0] ?? 0);
  if (name.startsWith("s")) return !/^[vi]\d/.test(part) || slot < (number(`${name}.plan`) & 7);
  if (!isTree) return /^(value|left|right|info|marked)$/.test(part);
  const { leaf, class: order } = headOf(Number(name.slice(1)));
  if (PAIR_WORDS.includes(part)) {
    const isThere = (leaf || part === "key") && slot <= number(`${name}.more`);
    return isThere && (order === 0 || read(`${name}.${part}`) !== "0");
  }
  return part === "more" ? leaf : leaf ? part !== "left" && part !== "right" : true;
}

function drawWords() {
  const name = pointedName();
  put(wordsTitle, name ? `The words of ${name}` : "The words of a node");
  if (!name) {
    put(wordList, "point at a node, or make a step");
    return;
  }
  const isScx = name.startsWith("s");
  const parts = (isScx ? SCX_WORDS : NODE_WORDS).filter((part) => isSaid(name, part));
  put(wordList, parts.map((part) => {
    const held = read(`${name}.${part}`);
    const said = part === "plan" ? planText(Number(name.slice(1)), held) : meaning(`.${part}`, held);
    return `<span>${part} ${escape(said)}</span>`;
  }).join(""));
}

function planText(scx, held) {
  const { nodes, retired, field } = planOf(scx);
  return held === "0" ? "0" : `${held}: ${nodes.length} nodes, retires ${listOf(retired)}, changes ${field}`;
}

const listOf = (nodes) => nodes.map((node) => `n${node}`).join(", ") || "none";

// The SCX-records that began and have not ended, each with the turns from and to which it was in progress.
const spans = new Map();
for (const turn of turns) {
  const { scx, place, kind, changes } = turn;
  if (kind === "freeze" && changes && !spans.has(scx)) spans.set(scx, { scx, from: place, to: Infinity });
  if ((kind === "commit" || kind === "abort") && changes && spans.has(scx)) spans.get(scx).to = place;
}
const spanList = [...spans.values()];

function drawGoing() {
  const items = [];
  for (let at = countTo(spanList, now, (span) => span.from) - 1; at >= 0 && items.length < passes; at--) {
    if (now < spanList[at].to) items.unshift(goingText(spanList[at].scx));
  }
  put(going, items.join("") || '<li class="dim">none</li>');
}

function goingText(scx) {
  const owner = ownerOf(scx);
  const { nodes, retired, field } = planOf(scx);
  const isFrozen = (node) => number(`n${node}.info`) === scx;
  const covers = nodes.map((node) => `n${node}${isFrozen(node) ? " (frozen)" : ""}`).join(", ");
  const puts = read(field) === read(`s${scx}.new`) ? "has put" : "is to put";
  const helpers = clients.filter((client) => client !== owner && client.works.at(-1) === scx);
  const names = helpers.map((client) => `${chip(client.number)}client ${client.number}`).join(", ");
  const whose = `${chip(owner?.number ?? 0)}<b>s${scx}</b>, client ${owner?.number}'s ${escape(callOf(scx)?.text)}`;
  const plan = `covers ${covers}; retires ${listOf(retired)}; ${puts} n${read(`s${scx}.new`)} into ${field}`;
  return `<li>${whose}: ${plan}. ${names ? `Helped by ${names}.` : '<span class="dim">Nobody helps.</span>'}</li>`;
}

const MOST_LISTED = 100;

function drawOrder() {
  const count = countTo(moments, now, (moment) => moment.turn);
  const from = Math.max(0, count - MOST_LISTED);
  const items = moments.slice(from, count).map(({ turn, call }, at) => {
    const answer = call?.answered <= now ? call.answer : "…";
    const text = `${chip(call?.client ?? 0)}${escape(call?.text)} → ${escape(answer)}`;
    return `<li class="${turn === now ? "now" : ""}">${from + at + 1}. ${text} <span class="dim">turn ${turn}</span></li>`;
  });
  if (from > 0) items.unshift(`<li class="dim">${from} before these</li>`);
  if (put(order, items.join("") || '<li class="dim">none</li>')) order.scrollTop = order.scrollHeight;
}

// ---- The page ----

const [shapeTitle, shape] = document.getElementById("shape").children;
const [wordsTitle, wordList] = document.getElementById("words").children;
const going = document.querySelector("#going ul");
const pairList = document.querySelector("#pairs ul");
const order = document.querySelector("#order ol");
const slider = document.getElementById("slider");
const say = document.getElementById("say");

// Puts a text into an element; answers whether it is another than before.
function put(element, text) {
  if (element.shown === text) return false;
  element.shown = text;
  element.innerHTML = text;
  return true;
}

let shapeWide = 0;
let isAsked = false;

// Looks how wide the page is, and draws all.
function measure() {
  [wide, left, shapeWide] = [lanes.clientWidth, lanes.clientWidth < 600 ? 30 : 74, shape.clientWidth];
  [drawnTo, drawnVersion] = [-1, -1];
  show();
}

// Draws once a frame, however many steps are made in it.
function show() {
  if (isAsked) return;
  isAsked = true;
  requestAnimationFrame(draw);
}

function draw() {
  isAsked = false;
  drawLanes();
  if (isTree) drawTree();
  else drawCells();
  drawRing();
  drawWords();
  drawGoing();
  drawOrder();
  const text = now === 0 ? "before the first turn" : sentence(turns[now - 1]);
  put(say, `<b>${now}</b> of ${lastTurn}: ${escape(text)}.`);
  slider.value = now;
  BUTTONS.forEach(([, , , direction], at) => {
    nav.children[at].disabled = direction < 0 ? now === 0 : now === lastTurn;
  });
}

function point(name) {
  pinned = name;
  show();
}

function pointNext(by) {
  const at = drawn.indexOf(Number((pointedName() ?? "n").slice(1) || -1));
  point(`n${drawn[(at + by + drawn.length) % drawn.length]}`);
}

const endsTo = (turn) => countTo(answered, turn, (end) => end);

// A button: what stands on it, its key, what it does, the direction, and its name.
const BUTTONS = [
  ["|◀", "Home", () => go(0), -1, "to the start"],
  ["◀", "ArrowLeft", () => go(now - 1), -1, "a step back"],
  ["▶", "ArrowRight", () => go(now + 1), 1, "a step forward"],
  ["▶|", "End", () => go(lastTurn), 1, "to the end"],
  ["◀ call", "ArrowUp", () => go(answered[endsTo(now - 1) - 1] ?? 0), -1, "to the end of the call before"],
  ["call ▶", "ArrowDown", () => go(answered[endsTo(now)] ?? lastTurn), 1, "to the end of the next call"],
  ["freeze", "f", () => go(find(1, ofKind("freeze"))), 1, "to the next freeze"],
  ["update", "u", () => go(find(1, ofKind("update"))), 1, "to the next update"],
  ["abort", "a", () => go(find(1, ofKind("abort"))), 1, "to the next abort"],
];
const KEYS = {
  F: () => go(find(-1, ofKind("freeze"))),
  U: () => go(find(-1, ofKind("update"))),
  A: () => go(find(-1, ofKind("abort"))),
  n: () => pointNext(1),
  p: () => pointNext(-1),
  Escape: () => point(null),
};
const nav = document.querySelector("nav");
for (const [label, key, action, , name] of BUTTONS) {
  const button = document.createElement("button");
  button.textContent = label;
  button.title = `${name} (${key})`;
  button.setAttribute("aria-label", name);
  button.addEventListener("click", action);
  nav.append(button);
  KEYS[key] = action;
}

document.addEventListener("keydown", (event) => {
  if (event.ctrlKey || event.altKey || event.metaKey || !Object.hasOwn(KEYS, event.key)) return;
  event.preventDefault();
  KEYS[event.key]();
});
slider.max = lastTurn;
slider.addEventListener("input", () => go(Number(slider.value)));
lanes.addEventListener("click", (event) => {
  go(turnAt(event.clientX - lanes.getBoundingClientRect().left - left + shift));
});
const nameAt = (event) => event.target.closest("[data-name]")?.dataset.name;
shape.addEventListener("click", (event) => point(nameAt(event) ?? null));
shape.addEventListener("mouseover", (event) => nameAt(event) && point(nameAt(event)));
shape.addEventListener("mouseleave", () => point(null));
addEventListener("resize", measure);
addEventListener("hashchange", () => go(Number(location.hash.slice(1)) || 0));

document.querySelector("h1").textContent = [
  isTree ? "tree" : "cells",
  `clients: ${callers.length}`,
  `calls answered: ${answered.length} of ${callRows.length}`,
  `turns: ${lastTurn}`,
  `updates: ${entries.length}`,
].join(" · ");
shapeTitle.textContent = isTree ? "The tree, as the words spell it" : "The cells";
document.getElementById("pairs").hidden = !isTree;
measure();
go(Number(location.hash.slice(1)) || 0);
"##;
