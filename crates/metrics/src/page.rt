// The page of the operator's address.

/// The page that draws the metrics in a browser: HTML, whole in itself, which takes nothing from
/// elsewhere and has no way to change anything.
pub const PAGE: &str = "\
<!doctype html>
<html lang=\"en\">
<meta charset=\"utf-8\">
<meta name=\"viewport\" content=\"width=device-width, initial-scale=1\">
<meta http-equiv=\"Content-Security-Policy\" content=\"default-src 'none'; connect-src 'self';
  script-src 'unsafe-inline'; style-src 'unsafe-inline'; img-src data:\">
<link rel=\"icon\" href=\"data:,\">
<title>admission</title>
<style>
  * { box-sizing: border-box; }
  body { margin: 0; padding: 16px; font: 15px/1.4 system-ui, sans-serif; color: #222;
    background: #f6f7f8; }
  main { max-width: 1200px; margin: 0 auto; }
  header { display: flex; flex-wrap: wrap; gap: 4px 16px; align-items: baseline; }
  h1 { margin: 0; font-size: 20px; }
  h2 { margin: 0; font-size: 15px; }
  #state.silent { color: #b00020; font-weight: 600; }
  #warnings { margin: 12px 0 0; padding: 0; display: block; font-size: 15px; }
  #warnings li { padding: 8px 12px; margin-bottom: 8px; border-radius: 6px; color: #fff;
    background: #b00020; font-weight: 600; }
  #warnings li::before { display: none; }
  dl { display: grid; grid-template-columns: repeat(auto-fill, minmax(104px, 1fr)); gap: 8px;
    margin: 12px 0; }
  dl > div, section { background: #fff; border: 1px solid #dfe3e6; border-radius: 6px; }
  dl > div { padding: 6px 10px; }
  dt { color: #5a6570; font-size: 13px; }
  dd { margin: 0; font-size: 20px; font-variant-numeric: tabular-nums; }
  #panels { display: grid; grid-template-columns: repeat(auto-fit, minmax(min(100%, 460px), 1fr));
    gap: 12px; }
  section { padding: 10px 12px; min-width: 0; }
  canvas { display: block; width: 100%; height: 190px; margin-top: 4px; }
  ul { display: flex; flex-wrap: wrap; gap: 2px 14px; margin: 6px 0 0; padding: 0;
    list-style: none; font-size: 13px; font-variant-numeric: tabular-nums; }
  li::before { content: ''; display: inline-block; width: 11px; height: 11px; margin-right: 5px;
    border-radius: 2px; background: var(--color); }
  li.line::before { height: 3px; vertical-align: 3px; }
</style>
<main>
  <header><h1>admission</h1><span id=\"state\">waiting for the gateway</span></header>
  <ul id=\"warnings\"></ul>
  <dl id=\"figures\"></dl>
  <div id=\"panels\"></div>
  <noscript>This page needs JavaScript. The same numbers are at /metrics.</noscript>
</main>
<script>
'use strict';
const KEPT_SECONDS = 300, LEAST_SECONDS = 60, PATIENCE_MS = 5000;
const CLASS_COLORS = ['#0072b2', '#e69f00', '#009e73', '#cc79a7'];
const UNKNOWN_COLOR = '#8a949e', LIMIT_COLOR = '#111', WORKERS_COLOR = '#b00020';
const REFUSALS = [['full', 'no room', '#d55e00'], ['backlog', 'backlog full', '#f0a070'],
  ['timed-out', 'waited in vain', '#7a5195']];
// Families of counters whose rates are drawn: of each its title, and of each sample its label, what
// is said of it, and its color.
const RATES = {
  admission_responses_total: ['Answers a second, by status', [['2xx', '2xx', '#009e73'],
    ['3xx', '3xx', '#56b4e9'], ['4xx', '4xx', '#e69f00'], ['5xx', '5xx', '#d55e00'],
    ['other', 'other', '#8a949e'], ['none', 'without an answer', '#7a5195']]],
  admission_answers_total: ['Faults that the gateway answers a second', [
    ['502', '502, no answer of the backend', '#d55e00'],
    ['504', '504, no answer in time', '#f0a070'], ['500', '500, out of memory', '#7a5195'],
    ['503', '503, bodies at their bound', '#cc79a7']]],
  admission_outcomes_total: ['Permits that ended a second, by outcome', [
    ['success', 'success', '#009e73'], ['ignored', 'ignored', '#8a949e'],
    ['dropped', 'dropped', '#d55e00']]],
  admission_troubles_total: ['Troubles a second', [
    ['unreached', 'backend not reached', '#d55e00'], ['broken', 'answer broken', '#e69f00'],
    ['backend-timeout', 'answer not in time', '#f0a070'],
    ['without-descriptor', 'no descriptor', '#7a5195'],
    ['all-taken', 'all workers taken', '#cc79a7'], ['bodies', 'bodies at their bound', '#8a949e']]],
};
const TIMES = [['admission_round_trip_seconds', 'round trip', '#0072b2'],
  ['admission_permit_wait_seconds', 'waiting for a permit', '#e69f00'],
  ['admission_exchange_seconds', 'whole exchange', '#8a949e']];
const looks = [];
let lastAnswer = null;

// The samples of a text: by the family's name a number, or numbers by the value of their first
// label, each the sum of those that a second label tells apart.
function samplesOf(text) {
  const found = {};
  for (const line of text.split('\\n')) {
    const parts = /^([a-z_]+)(?:[{][a-z]+=\"([^\"]*)\"(?:,[^}]*)?[}])? ([0-9e-]+)$/.exec(line);
    if (!parts) continue;
    const [, name, label, value] = parts;
    if (label === undefined) found[name] = Number(value);
    else {
      const family = found[name] ??= {};
      family[label] = (family[label] ?? 0) + Number(value);
    }
  }
  return found;
}

// How much a counter rose in a second, from one look to the next of the same run.
function rateOf(family, label, look, before) {
  if (!before || look.told.admission_uptime_seconds < before.told.admission_uptime_seconds)
    return null;
  const more = (look.told[family][label] ?? 0) - (before.told[family][label] ?? 0);
  return more < 0 ? null : more / (look.at - before.at);
}

// The mean of a histogram's times from one look to the next of the same run, in milliseconds; none
// where no time was noted.
function meanOf(name, look, before) {
  if (!before || look.told.admission_uptime_seconds < before.told.admission_uptime_seconds)
    return null;
  const [sum, count] = ['sum', 'count'].map(it =>
    look.told[`${name}_${it}`] - before.told[`${name}_${it}`]);
  return count > 0 ? 1000 * sum / count : null;
}

// A look: when it was, and what the gateway told; it told nothing where it didn't answer.
function note(told) {
  const look = { at: Date.now() / 1000, told, rates: {}, refused: {}, means: {}, counted: {} };
  const before = looks.at(-1)?.told ? looks.at(-1) : null;
  if (told) for (const [kind] of REFUSALS)
    look.rates[kind] = rateOf('admission_decisions_total', kind, look, before);
  if (told) for (const name of classesOf(told))
    look.refused[name] = rateOf('admission_class_refused_total', name, look, before);
  if (told) for (const [family, [, samples]] of Object.entries(RATES)) {
    look.counted[family] = {};
    for (const [label] of samples)
      look.counted[family][label] = rateOf(family, label, look, before);
  }
  if (told) for (const [name] of TIMES) look.means[name] = meanOf(name, look, before);
  looks.push(look);
  while (looks[0].at < look.at - KEPT_SECONDS) looks.shift();
  if (told) lastAnswer = look;
}

// A time of the limit, in milliseconds; none where the limit doesn't know it.
function millisOf(told, name) {
  const seconds = told[`admission_limit_${name}_seconds`];
  return seconds === undefined ? null : 1000 * seconds;
}

const classesOf = told => Object.keys(told.admission_class_in_flight);
const colorOf = (name, place) => name === 'unknown' ? UNKNOWN_COLOR : CLASS_COLORS[place];

// The panels: of each its title, and what it draws of the last answer. Areas are stacked. A line
// that is `far` above all the rest isn't drawn, so that the rest stays readable.
const PANELS = [
  { title: 'In flight, by class', series: told => [
    ...classesOf(told).map((name, place) => ({ name, color: colorOf(name, place),
      value: look => look.told.admission_class_in_flight[name],
      said: `${name} ${told.admission_class_in_flight[name]}`
        + (name === 'unknown' ? '' : `, share ${told.admission_class_share[name]}`) })),
    { color: LIMIT_COLOR, line: true, value: look => look.told.admission_limit,
      said: `limit ${told.admission_limit}` },
    { color: WORKERS_COLOR, line: true, dashed: true, far: true,
      value: look => look.told.admission_workers, said: `workers ${told.admission_workers}` }] },
  { title: 'Refusals a second', series: told => REFUSALS.map(([kind, name, color]) => ({
    color, value: look => look.rates[kind],
    said: `${name} ${(lastAnswer.rates[kind] ?? 0).toFixed(1)}` })) },
  { title: 'Refusals a second, by class', series: told => classesOf(told).map((name, place) => ({
    color: colorOf(name, place), value: look => look.refused[name],
    said: `${name} ${(lastAnswer.refused[name] ?? 0).toFixed(1)}` })) },
  { title: 'Waiting for a permit, by class', series: told => classesOf(told).map((name, place) => ({
    color: colorOf(name, place), value: look => look.told.admission_class_waiting[name],
    said: `${name} ${told.admission_class_waiting[name]}` })) },
  { title: 'Busy workers', series: told => [
    { color: '#7f9f7f', value: look => look.told.admission_busy_workers,
      said: `busy ${told.admission_busy_workers}` },
    { color: WORKERS_COLOR, line: true, dashed: true, value: look => look.told.admission_workers,
      said: `workers ${told.admission_workers}` }] },
  { title: 'Mean times, in milliseconds', series: () => TIMES.map(([name, said, color]) => ({
    color, line: true, value: look => look.means[name],
    said: `${said} ${lastAnswer.means[name]?.toFixed(1) ?? 'none'}` })) },
  { title: 'What the limit learns by, in milliseconds', series: told => [
    { color: '#0072b2', line: true, value: look => millisOf(look.told, 'window_mean'),
      said: `last window ${millisOf(told, 'window_mean')?.toFixed(1) ?? 'none'}` },
    { color: '#009e73', line: true, dashed: true, value: look => millisOf(look.told, 'base'),
      said: `base ${millisOf(told, 'base')?.toFixed(1) ?? 'none'}`
        + `, queue ${told.admission_limit_queue ?? 'none'}` }] },
  ...Object.entries(RATES).map(([family, [title, samples]]) => ({ title, series: () =>
    samples.map(([label, name, color]) => ({ color, value: look => look.counted[family][label],
      said: `${name} ${(lastAnswer.counted[family][label] ?? 0).toFixed(1)}` })) })),
];

// What an operator is to see at once: of each the text, and whether it is so by the last answer.
const WARNINGS = [
  [\"The backend can't be reached: no connection was made for ten seconds.\",
    told => told.admission_backend_unreached === 1],
  ['Requests are refused though the limit is at its greatest and the backend has no queue: '
    + 'raise `max` or EXCHANGES.',
    told => told.admission_limit >= told.admission_limit_greatest
      && told.admission_limit_queue === 0 && REFUSALS.some(([kind]) => lastAnswer.rates[kind] > 0)],
];

function showWarnings(told) {
  const texts = WARNINGS.filter(([, holds]) => holds(told)).map(([text]) => text);
  document.getElementById('warnings').replaceChildren(...texts.map(text => {
    const item = document.createElement('li');
    item.textContent = text;
    return item;
  }));
}

for (const panel of PANELS) {
  const section = document.createElement('section');
  const title = document.createElement('h2');
  title.textContent = panel.title;
  panel.canvas = document.createElement('canvas');
  panel.legend = document.createElement('ul');
  section.append(title, panel.canvas, panel.legend);
  document.getElementById('panels').append(section);
}

// The least round number that isn't below this one.
function roundedUp(number) {
  const power = 10 ** Math.floor(Math.log10(Math.max(1, number)));
  return [1, 1.5, 2, 3, 4, 5, 6, 8, 10].map(times => times * power).find(it => number <= it);
}

// The runs of looks that have a value, each a list of pairs of a moment and that value.
function runsOf(valueOf) {
  const runs = [[]];
  for (const look of looks) {
    const value = look.told ? valueOf(look) : null;
    if (value === null || value === undefined) runs.push([]);
    else runs.at(-1).push([look.at, value, look]);
  }
  return runs.filter(run => run.length > 0);
}

// The areas of the series, each upon those before it.
function stacked(series) {
  const sums = new Map();
  return series.filter(it => !it.line).map(it => ({ ...it, runs: runsOf(it.value).map(run =>
    run.map(([at, value, look]) => {
      const below = sums.get(look) ?? 0;
      sums.set(look, below + value);
      return [at, below, below + value];
    })) }));
}

const highest = runs => Math.max(0, ...runs.flat().map(point => point.at(-1)));

function drawPanel(panel, now) {
  const series = panel.series(lastAnswer.told);
  const areas = stacked(series);
  const lines = series.filter(it => it.line).map(it => ({ ...it, runs:
    runsOf(it.value).map(run => run.map(([at, value]) => [at, value])) }));
  const mostOf = all => Math.max(4, ...all.map(it => highest(it.runs)));
  const near = mostOf([...areas, ...lines.filter(it => !it.far)]);
  const whole = mostOf([...areas, ...lines]);
  const top = roundedUp(1.05 * (whole > 3 * near ? near : whole));
  const frame = framed(panel.canvas, top, now);
  for (const area of areas) drawArea(frame, area);
  for (const line of lines.filter(it => highest(it.runs) <= top)) drawLine(frame, line);
  panel.legend.replaceChildren(...series.map(it => {
    const item = document.createElement('li');
    item.textContent = it.far && whole > top ? `${it.said}, above` : it.said;
    item.style.setProperty('--color', it.color);
    item.classList.toggle('line', Boolean(it.line));
    return item;
  }));
}

// A canvas with its axes: values up to `top`, and the time since the first look that is kept.
function framed(canvas, top, now) {
  const scale = window.devicePixelRatio || 1;
  const [width, height] = [canvas.clientWidth, canvas.clientHeight];
  canvas.width = width * scale;
  canvas.height = height * scale;
  const pen = canvas.getContext('2d');
  pen.scale(scale, scale);
  const [left, right, above, below] = [36, width - 6, 8, height - 20];
  const seconds = Math.min(KEPT_SECONDS, Math.max(LEAST_SECONDS, now - looks[0].at));
  const x = at => right - (now - at) / seconds * (right - left);
  const y = value => below - value / top * (below - above);
  pen.font = '12px system-ui, sans-serif';
  pen.fillStyle = '#5a6570';
  pen.strokeStyle = '#e6e9ec';
  for (const part of [0, 0.5, 1]) {
    pen.textAlign = 'right';
    pen.fillText(String(top * part), left - 6, y(top * part) + 4);
    pen.strokeRect(left, y(top * part), right - left, 0);
  }
  pen.fillText('now', right, height - 4);
  for (let minutes = 1; minutes <= seconds / 60; minutes += 1) {
    pen.textAlign = x(now - 60 * minutes) < left + 20 ? 'left' : 'center';
    pen.fillText(`-${minutes} min`, x(now - 60 * minutes), height - 4);
  }
  return { pen, x, y, now };
}

// Each value holds until the next look, the last for a second at most.
function steps(frame, run, part) {
  return run.flatMap((point, place) => {
    const until = run[place + 1]?.[0] ?? Math.min(frame.now, point[0] + 1);
    return [point[0], until].map(at => [frame.x(at), frame.y(point[part])]);
  });
}

function drawArea(frame, area) {
  frame.pen.fillStyle = area.color;
  for (const run of area.runs) {
    frame.pen.beginPath();
    for (const [x, y] of [...steps(frame, run, 2), ...steps(frame, run, 1).reverse()])
      frame.pen.lineTo(x, y);
    frame.pen.fill();
  }
}

function drawLine(frame, line) {
  frame.pen.strokeStyle = line.color;
  frame.pen.lineWidth = 2;
  frame.pen.setLineDash(line.dashed ? [6, 4] : []);
  for (const run of line.runs) {
    frame.pen.beginPath();
    for (const [x, y] of steps(frame, run, 1)) frame.pen.lineTo(x, y);
    frame.pen.stroke();
  }
}

function lastingOf(seconds) {
  const [days, hours] = [Math.floor(seconds / 86400), Math.floor(seconds / 3600) % 24];
  const minutes = Math.floor(seconds / 60) % 60;
  return days ? `${days} d ${hours} h` : hours ? `${hours} h ${minutes} min`
    : minutes ? `${minutes} min` : `${seconds} s`;
}

function showFigures(told) {
  const figures = [['limit', told.admission_limit], ['in flight', told.admission_in_flight],
    ['waiting', told.admission_waiting],
    ['busy workers', `${told.admission_busy_workers} / ${told.admission_workers}`],
    ['clients that wait', `${told.admission_silent_client_connections} silent, `
      + `${told.admission_idle_client_connections} kept`],
    ['backend connections', `${told.admission_open_backend_connections}, `
      + `${told.admission_idle_backend_connections} idle`],
    ['serving for', lastingOf(told.admission_uptime_seconds)],
    ['version', Object.keys(told.admission_build_info)[0]]];
  document.getElementById('figures').replaceChildren(...figures.map(([name, value]) => {
    const [box, term, figure] = ['div', 'dt', 'dd'].map(it => document.createElement(it));
    term.textContent = name;
    figure.textContent = value;
    box.append(term, figure);
    return box;
  }));
}

function showState(answers) {
  const state = document.getElementById('state');
  const since = lastAnswer && new Date(lastAnswer.at * 1000).toLocaleTimeString();
  state.classList.toggle('silent', !answers);
  state.textContent = answers ? `at ${location.host}, looked at each second`
    : since ? `The gateway hasn't answered since ${since}.` : \"The gateway doesn't answer.\";
}

function draw() {
  if (lastAnswer) for (const panel of PANELS) drawPanel(panel, Date.now() / 1000);
}

async function look() {
  const begun = Date.now();
  let told = null;
  try {
    const answer = await fetch('/metrics', { cache: 'no-store',
      signal: AbortSignal.timeout(PATIENCE_MS) });
    if (answer.ok) told = samplesOf(await answer.text());
  } catch { /* It is shown that it doesn't answer. */ }
  note(told);
  showState(told !== null);
  if (told) {
    showFigures(told);
    showWarnings(told);
  }
  draw();
  setTimeout(look, Math.max(0, begun + 1000 - Date.now()));
}

window.addEventListener('resize', draw);
look();
</script>
</html>
";
