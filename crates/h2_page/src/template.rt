//! The parts of a page before and after the lines. Neither has a double quote.

/// The head of a page: its style, and the place of the lines.
pub(crate) const HEAD: &str = r"<!doctype html>
<html lang='en'>
<head>
<meta charset='utf-8'>
<meta name='viewport' content='width=device-width'>
<title>h2 show --follow</title>
<style>
:root {
  color-scheme: light dark;
  --ground: #fbfbfd;
  --text: #1b1f24;
  --faint: #6b7480;
  --line: #d5dae1;
  --row: #f0f2f6;
  --fault: #c4201c;
  --fault-ground: #fdeceb;
  --bar: #7aa7e0;
}
@media (prefers-color-scheme: dark) {
  :root {
    --ground: #15181d;
    --text: #e4e7ec;
    --faint: #949eab;
    --line: #363d47;
    --row: #1e232a;
    --fault: #ff7b72;
    --fault-ground: #3a1d1d;
    --bar: #3f6ca8;
  }
}
* { box-sizing: border-box; }
body {
  margin: 0;
  background: var(--ground);
  color: var(--text);
  font: 14px/1.45 system-ui, sans-serif;
}
header {
  position: sticky;
  top: 0;
  z-index: 2;
  background: var(--ground);
  border-bottom: 1px solid var(--line);
  padding: .6rem 1rem .4rem;
}
h1 { font-size: 1rem; margin: 0 0 .3rem; font-weight: 600; }
.ends, .row { display: grid; grid-template-columns: 3.2rem 8.5rem 1fr 1fr 8.5rem; }
.ends { font-weight: 600; }
.ends span:nth-child(3) { text-align: left; }
.ends span:nth-child(4) { text-align: right; }
#keys {
  display: flex;
  flex-wrap: wrap;
  gap: .3rem;
  padding: .2rem 0;
  max-height: 4.6rem;
  overflow: auto;
}
#keys button {
  font: inherit;
  font-size: .8rem;
  border: 1px solid var(--line);
  border-left: .5rem solid var(--hue);
  border-radius: .3rem;
  background: none;
  color: inherit;
  cursor: pointer;
  padding: 0 .5rem;
}
#keys button.folded { opacity: .45; text-decoration: line-through; }
main { padding: .4rem 1rem 2rem; }
.row { position: relative; content-visibility: auto; contain-intrinsic-size: auto 1.6rem; }
.row:hover { background: var(--row); }
.number { color: var(--faint); font-size: .75rem; padding-top: .15rem; }
.body {
  grid-column: 3 / 5;
  border-left: 2px solid var(--line);
  border-right: 2px solid var(--line);
  padding: .1rem .7rem;
  min-width: 0;
}
.server .body { text-align: right; }
.frame {
  display: inline-block;
  text-align: left;
  max-width: 100%;
  border-radius: .35rem;
  padding: 0 .5rem;
  background: color-mix(in srgb, var(--hue) 16%, transparent);
  border-left: 4px solid var(--hue);
  overflow-wrap: anywhere;
  cursor: pointer;
}
.server .frame { border-left: 0; border-right: 4px solid var(--hue); }
.kind { font-weight: 600; }
.arrow { color: var(--hue); }
.fields {
  display: block;
  font: 12px/1.45 ui-monospace, monospace;
  color: var(--faint);
  white-space: pre-wrap;
}
.alarm .frame {
  background: var(--fault-ground);
  border-color: var(--fault);
  color: var(--fault);
  cursor: default;
}
.rule { display: block; font-size: .85rem; }
.window { padding: .3rem .4rem 0; min-width: 0; }
.window i {
  display: block;
  height: .45rem;
  border-radius: .2rem;
  background: var(--bar);
  min-width: 1px;
}
.window small { color: var(--faint); font-size: .68rem; display: block; line-height: 1.1; }
.window.server { text-align: right; }
.window.server i { margin-left: auto; }
.window i.stream { height: .25rem; margin-top: .1rem; background: var(--hue); }
.window i.below { background: var(--fault); }
.hidden { display: none; }
noscript { display: block; padding: 1rem; }
</style>
</head>
<body>
<header><h1>Both sides of a connection <small id='count'></small></h1>
<div id='keys'></div>
<div class='ends'>
<span></span><span>client may send</span><span>client</span><span>server</span>
<span style='text-align:right'>server may send</span>
</div></header>
<main id='rows'></main>
<noscript>This page needs JavaScript to draw the connection; its lines are in the page source.
</noscript>
<script type='text/plain' id='lines'>
";

/// Its end: the script that draws the lines.
pub(crate) const END: &str = r"</script>
<script>
'use strict';
const RULES = {
  PROTOCOL_ERROR: 'RFC 9113, 5.4: a frame, or the order of frames, violates the protocol',
  INTERNAL_ERROR: 'an endpoint has failed',
  FLOW_CONTROL_ERROR: 'RFC 9113, 6.9: a flow-control window is exceeded or overflows',
  SETTINGS_TIMEOUT: 'RFC 9113, 6.5.3: SETTINGS were not acknowledged in time',
  STREAM_CLOSED: 'RFC 9113, 5.1: a frame on a closed stream',
  FRAME_SIZE_ERROR: 'RFC 9113, 4.2: a frame has an invalid length',
  COMPRESSION_ERROR: 'RFC 9113, 4.3: a field block cannot be decoded',
  ENHANCE_YOUR_CALM: 'RFC 9113, 10.5: the peer causes excessive load',
};
const SIDES = ['client', 'server'];
const other = { client: 'server', server: 'client' };

// What stands in the page is escaped: an octet that HTML gives a meaning is \xNN.
const plain = text => text.replace(/\\x(3c|3e|26|22|27)/g,
  (_, digits) => String.fromCharCode(parseInt(digits, 16)));
const make = (name, kind, text) => {
  const it = document.createElement(name);
  if (kind) it.className = kind;
  if (text !== undefined) it.textContent = text;
  return it;
};
const hue = stream => stream === 0 ? 'hsl(215 14% 55%)'
  : 'hsl(' + (stream * 83.7) % 360 + ' 62% 52%)';

// The rows: each frame with the fields below it.
const rows = [];
for (const escaped of document.getElementById('lines').textContent.split('\n')) {
  if (escaped === '') continue;
  const line = plain(escaped), side = line[0] === '>' ? 'client' : 'server';
  const text = line.slice(2);
  if (text.startsWith('  ')) {
    const at = rows.findLast(row => row.side === side);
    if (at) at.fields.push(text.slice(2));
  } else {
    rows.push({ side, text, fields: [] });
  }
}

// What each side may still send of DATA, on the connection and on each stream, by the frames so
// far. What the other side's SETTINGS give a stream is raised at once, and lowered at the ACK.
const windows = { client: 65535, server: 65535 }, most = { client: 1, server: 1 };
const initial = { client: 65535, server: 65535 }, mostOf = { client: 1, server: 1 };
const streams = { client: new Map(), server: new Map() };
const unacknowledged = { client: [], server: [] };
const left = (side, stream) => streams[side].get(stream) ?? initial[side];
const give = (side, stream, octets) => streams[side].set(stream, left(side, stream) + octets);
const begin = (side, octets) => {
  for (const stream of streams[side].keys()) give(side, stream, octets - initial[side]);
  initial[side] = octets;
};
const settings = (side, text) => {
  if (/ ack$/.test(text)) {
    const octets = unacknowledged[side].shift() ?? null;
    if (octets !== null) begin(side, octets);
    return;
  }
  const values = [...text.matchAll(/ (?:4|INITIAL_WINDOW_SIZE)=(\d+)/g)], last = values.at(-1);
  const octets = last ? Number(last[1]) : null;
  unacknowledged[other[side]].push(octets);
  if (octets !== null && octets > initial[other[side]]) begin(other[side], octets);
};
for (const row of rows) {
  const words = row.text.split(' ');
  row.kind = words[0];
  row.stream = /^[A-Z_]+[0-9]*$/.test(row.kind) && words.length > 2 ? Number(words[1]) : 0;
  if (row.kind === 'SETTINGS') settings(row.side, row.text);
  if (row.kind === 'DATA') {
    windows[row.side] -= Number(words[2]);
    give(row.side, row.stream, -Number(words[2]));
  }
  const add = row.text.match(/^WINDOW_UPDATE \d+ 4 add=(\d+)/);
  if (add && row.stream === 0) windows[other[row.side]] += Number(add[1]);
  if (add && row.stream !== 0) give(other[row.side], row.stream, Number(add[1]));
  row.windows = { client: windows.client, server: windows.server };
  for (const side of SIDES) most[side] = Math.max(most[side], windows[side]);
  if (row.stream === 0 || (row.kind !== 'DATA' && !add)) continue;
  row.left = { client: left('client', row.stream), server: left('server', row.stream) };
  for (const side of SIDES) mostOf[side] = Math.max(mostOf[side], row.left[side]);
}

const line = (size, greatest, kind) => {
  const it = make('i', kind);
  it.classList.toggle('below', size < 0);
  it.style.width = Math.max(0.5, 100 * Math.max(0, size) / greatest) + '%';
  return it;
};
const bar = (row, side, moved) => {
  const cell = make('div', 'window ' + side), size = row.windows[side];
  if (moved) {
    cell.append(line(size, most[side], ''), make('small', '', size.toLocaleString('en')));
    cell.title = 'the ' + side + ' may send ' + size + ' octets';
  }
  if (row.left) {
    const share = row.left[side], name = 'stream ' + row.stream;
    const text = name + ': ' + share.toLocaleString('en');
    cell.append(line(share, mostOf[side], 'stream'), make('small', '', text));
    cell.title += (moved ? ', ' : 'the ' + side + ' may send ') + share + ' on ' + name;
  }
  return cell;
};

const folded = new Set(), byStream = new Map(), buttons = new Map();
const fold = stream => {
  const now = !folded.has(stream);
  if (now) folded.add(stream); else folded.delete(stream);
  buttons.get(stream).classList.toggle('folded', now);
  byStream.get(stream).forEach((it, place) => {
    it.classList.toggle('hidden', now && place > 0 && !it.classList.contains('alarm'));
  });
};

const all = document.createDocumentFragment();
let before = { client: -1, server: -1 };
rows.forEach((row, index) => {
  const it = make('div', 'row ' + row.side), body = make('div', 'body');
  const frame = make('span', 'frame'), end = row.text.indexOf(' ');
  const alarm = /^(fault |rest |unfinished|not checked)/.test(row.text);
  it.style.setProperty('--hue', hue(row.stream));
  it.classList.toggle('alarm', alarm);
  frame.append(make('span', 'arrow', row.side === 'client' ? '→ ' : '← '));
  if (alarm || end < 0) {
    frame.append(make('span', 'kind', row.text));
    const rule = RULES[row.text.split(' ')[1]];
    if (row.kind === 'fault' && rule) frame.append(make('span', 'rule', rule));
  } else {
    frame.append(make('span', 'kind', row.text.slice(0, end)), row.text.slice(end));
    frame.addEventListener('click', () => fold(row.stream));
  }
  if (row.fields.length) frame.append(make('span', 'fields', row.fields.join('\n')));
  body.append(frame);
  const moved = SIDES.some(side => row.windows[side] !== before[side]);
  before = row.windows;
  it.append(make('div', 'number', String(index + 1)),
    bar(row, 'client', moved), body, bar(row, 'server', moved));
  if (!byStream.has(row.stream)) byStream.set(row.stream, []);
  byStream.get(row.stream).push(it);
  all.append(it);
});
document.getElementById('rows').append(all);
document.getElementById('count').textContent =
  rows.length + ' rows, ' + byStream.size + ' streams';

for (const stream of [...byStream.keys()].sort((a, b) => a - b)) {
  const button = make('button', '', stream === 0 ? 'connection' : 'stream ' + stream);
  button.style.setProperty('--hue', hue(stream));
  button.addEventListener('click', () => fold(stream));
  buttons.set(stream, button);
  document.getElementById('keys').append(button);
}
</script>
</body>
</html>
";
