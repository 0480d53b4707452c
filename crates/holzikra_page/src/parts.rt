//! The style and the script of a page, and their digests, by which the page's policy names them: SHA-256 in Base64. Made by
//! `.ci/page` from page.css and page.js.

/// The digest of the style.
pub(crate) const STYLE_HASH: &str = "sha256-jeardqNF3ZRSr09WW7UFtPXGeYHdO0ulUEiyaJTn9Hg=";

/// The style.
pub(crate) const STYLE: &str = "\
:root{color-scheme:light dark;--text:#1f2328;--quiet:#59636e;--ground:#fff;--raised:#f6f8fa;--edge:#d1d9e0;--link:#0550ae;\n\
--wrong:#b42318;--within:#eef4ff;--exact:#d9e7ff;--on:#ffe08a;--name:#c9f2d0;--jump:#ffd9c2}\n\
@media(prefers-color-scheme:dark){:root{--text:#e6edf3;--quiet:#a8b0ba;--ground:#0d1117;--raised:#161b22;--edge:#3d444d;--link:#79b8ff;\n\
--wrong:#ff8f85;--within:#16233a;--exact:#1e3557;--on:#443700;--name:#12422a;--jump:#57301a}}\n\
*{box-sizing:border-box}\n\
body{margin:0 auto;padding:0 1rem 2rem;font:14px/1.45 system-ui,sans-serif;color:var(--text);background:var(--ground)}\n\
h1{display:inline-block;margin:.8rem 1rem .8rem 0;font-size:1.15rem}\n\
h2{margin:.4rem 0;font-size:.8rem;color:var(--quiet);text-transform:uppercase;letter-spacing:.05em}\n\
input[type=search]{font:inherit;color:inherit;background:var(--raised);border:1px solid var(--edge);border-radius:6px}\n\
input[type=search]{padding:.25rem .6rem;width:18rem;max-width:100%}\n\
summary{cursor:pointer;padding:.45rem 0;overflow-wrap:anywhere;unicode-bidi:isolate;direction:ltr}\n\
details{border-top:1px solid var(--edge)}\n\
.file>summary{font-weight:600}\n\
.refused>summary{font-weight:600;color:var(--wrong)}\n\
.refused>pre{width:auto;min-width:0;padding:.5rem .75rem;background:var(--raised);border:1px solid var(--edge);border-radius:6px;overflow:auto}\n\
.panes{display:grid;grid-template-columns:15rem minmax(0,1fr) minmax(0,1.1fr);gap:.75rem;padding-bottom:1rem}\n\
.pane{max-height:82vh;overflow:auto;border:1px solid var(--edge);border-radius:6px;padding:.25rem .5rem;background:var(--ground);position:relative}\n\
.refused .pane{max-height:50vh;margin-bottom:1rem}\n\
pre,table.source{font:12px/1.5 ui-monospace,\"DejaVu Sans Mono\",Menlo,Consolas,monospace;margin:0}\n\
pre{white-space:pre;padding:.15rem .25rem;border-radius:4px;width:max-content;min-width:100%}\n\
pre[id]+pre[id]{margin-top:.4rem}\n\
pre.within{box-shadow:inset 2px 0 var(--link)}\n\
.line{display:block;min-height:1.5em;cursor:pointer;unicode-bidi:isolate;direction:ltr}\n\
.line:hover,table.closed tr[data-owner]:hover,table.source tr:hover{background:var(--raised)}\n\
table{border-collapse:collapse}\n\
table.source td{padding:0;white-space:pre;unicode-bidi:isolate;direction:ltr;height:1.5em}\n\
table.source td.n{position:sticky;left:0;background:var(--ground);padding:0 .75rem 0 .25rem;text-align:right;color:var(--quiet)}\n\
table.source td.n{user-select:none;min-width:3rem}\n\
.file table.source tr{cursor:pointer}\n\
table.counts th,table.closed th{text-align:left;font-weight:normal;color:var(--quiet);padding:.15rem 1rem .15rem 0}\n\
table.counts td{text-align:right;font-variant-numeric:tabular-nums}\n\
table.closed td{padding:.15rem 1rem .15rem 0;vertical-align:top}\n\
table.closed td.name{font-family:ui-monospace,\"DejaVu Sans Mono\",monospace;overflow-wrap:anywhere}\n\
ul{list-style:none;margin:0;padding-left:.9rem}\n\
.functions{padding-left:0}\n\
.functions a{display:block;padding:.05rem .3rem;border-radius:4px;overflow-wrap:anywhere;unicode-bidi:isolate;max-height:4.5em;overflow:hidden}\n\
a{color:var(--link);text-decoration:none}\n\
a:hover{text-decoration:underline}\n\
:focus-visible{outline:2px solid var(--link);outline-offset:1px}\n\
.within{background:var(--within)}\n\
tr.within td.n{background:var(--within)}\n\
.to,.from{background:var(--jump)}\n\
.name{background:none}\n\
.line.name,tr.name{background:var(--name)}\n\
.on,.line.on,tr:target{background:var(--on)}\n\
::highlight(function){background-color:var(--exact)}\n\
::highlight(name){background-color:var(--name)}\n\
.hidden{display:none}\n\
.opcode{position:sticky;top:2.4rem;margin:0;color:var(--quiet);background:var(--raised);border-radius:4px;padding:.2rem .5rem;z-index:1}\n\
.opcode:empty{display:none}\n\
nav.tabs{position:sticky;top:-.25rem;left:0;z-index:2;background:var(--ground);border-bottom:1px solid var(--edge)}\n\
nav.tabs{padding:.25rem 0;display:flex;gap:.25rem}\n\
nav.tabs button{font:inherit;color:inherit;background:none;border:0;border-radius:4px;padding:.2rem .7rem;cursor:pointer}\n\
nav.tabs button:hover{background:var(--raised)}\n\
nav.tabs button[aria-selected=true]{background:var(--within);color:var(--link);font-weight:600}\n\
nav.tabs~.tab h2{display:none}\n\
svg.closures{display:block;font:11.5px ui-monospace,\"DejaVu Sans Mono\",Menlo,Consolas,monospace}\n\
svg text{fill:var(--text);white-space:pre}\n\
svg a text{fill:var(--link)}\n\
svg text.names{fill:var(--quiet)}\n\
svg rect{fill:var(--raised);stroke:var(--edge)}\n\
svg a.on rect{fill:var(--on);stroke:var(--link)}\n\
svg path{fill:none;stroke:var(--edge)}\n\
svg path.use{stroke:var(--quiet);stroke-dasharray:4 3}\n\
svg path.head{fill:var(--quiet);stroke:none}\n\
svg path.use.on{stroke:var(--link);stroke-width:2;background:none}\n\
@media(max-width:60em){.panes{grid-template-columns:minmax(0,1fr)}.pane{max-height:60vh}body{padding:0 .5rem 1rem}}\n\
";

/// The digest of the script.
pub(crate) const SCRIPT_HASH: &str = "sha256-qwXe43SZawQxaqOKgh8EqFzF4VnRBS2SaNqM0J0pOi4=";

/// The script: it shows a function, an instruction or a name in all panes at once, and looks functions up by name.
pub(crate) const SCRIPT: &str = "\
\"use strict\";\n\
(function () {\n\
// Of each opcode: its operand, values taken, values given, where control goes. From docs/opcodes.md.\n\
var opcodes = {\n\
Undefined: [\"\", \"0\", \"1\", \"the next instruction\"],\n\
Null: [\"\", \"0\", \"1\", \"the next instruction\"],\n\
False: [\"\", \"0\", \"1\", \"the next instruction\"],\n\
True: [\"\", \"0\", \"1\", \"the next instruction\"],\n\
Zero: [\"\", \"0\", \"1\", \"the next instruction\"],\n\
One: [\"\", \"0\", \"1\", \"the next instruction\"],\n\
Hole: [\"\", \"0\", \"1\", \"the next instruction\"],\n\
Uninitialized: [\"\", \"0\", \"1\", \"the next instruction\"],\n\
Callee: [\"\", \"0\", \"1\", \"the next instruction\"],\n\
FunctionThis: [\"\", \"0\", \"1\", \"the next instruction\"],\n\
GlobalThis: [\"\", \"0\", \"1\", \"the next instruction\"],\n\
Arguments: [\"\", \"0\", \"1\", \"the next instruction\"],\n\
IsConstructing: [\"\", \"0\", \"1\", \"the next instruction\"],\n\
NewInit: [\"\", \"0\", \"1\", \"the next instruction\"],\n\
Exception: [\"\", \"0\", \"1\", \"the next instruction\"],\n\
Int8: [\"a whole number\", \"0\", \"1\", \"the next instruction\"],\n\
Uint16: [\"a whole number\", \"0\", \"1\", \"the next instruction\"],\n\
Uint24: [\"a whole number\", \"0\", \"1\", \"the next instruction\"],\n\
Int32: [\"a whole number\", \"0\", \"1\", \"the next instruction\"],\n\
Double: [\"a whole number\", \"0\", \"1\", \"the next instruction\"],\n\
String: [\"a text, by its number\", \"0\", \"1\", \"the next instruction\"],\n\
Pos: [\"\", \"1\", \"1\", \"the next instruction\"],\n\
Neg: [\"\", \"1\", \"1\", \"the next instruction\"],\n\
BitNot: [\"\", \"1\", \"1\", \"the next instruction\"],\n\
Not: [\"\", \"1\", \"1\", \"the next instruction\"],\n\
Typeof: [\"\", \"1\", \"1\", \"the next instruction\"],\n\
TypeofExpr: [\"\", \"1\", \"1\", \"the next instruction\"],\n\
Void: [\"\", \"1\", \"1\", \"the next instruction\"],\n\
Inc: [\"\", \"1\", \"1\", \"the next instruction\"],\n\
Dec: [\"\", \"1\", \"1\", \"the next instruction\"],\n\
ToNumeric: [\"\", \"1\", \"1\", \"the next instruction\"],\n\
ToPropertyKey: [\"\", \"1\", \"1\", \"the next instruction\"],\n\
ToString: [\"\", \"1\", \"1\", \"the next instruction\"],\n\
Add: [\"\", \"2\", \"1\", \"the next instruction\"],\n\
Sub: [\"\", \"2\", \"1\", \"the next instruction\"],\n\
Mul: [\"\", \"2\", \"1\", \"the next instruction\"],\n\
Div: [\"\", \"2\", \"1\", \"the next instruction\"],\n\
Mod: [\"\", \"2\", \"1\", \"the next instruction\"],\n\
Pow: [\"\", \"2\", \"1\", \"the next instruction\"],\n\
BitOr: [\"\", \"2\", \"1\", \"the next instruction\"],\n\
BitXor: [\"\", \"2\", \"1\", \"the next instruction\"],\n\
BitAnd: [\"\", \"2\", \"1\", \"the next instruction\"],\n\
Lsh: [\"\", \"2\", \"1\", \"the next instruction\"],\n\
Rsh: [\"\", \"2\", \"1\", \"the next instruction\"],\n\
Ursh: [\"\", \"2\", \"1\", \"the next instruction\"],\n\
Eq: [\"\", \"2\", \"1\", \"the next instruction\"],\n\
Ne: [\"\", \"2\", \"1\", \"the next instruction\"],\n\
StrictEq: [\"\", \"2\", \"1\", \"the next instruction\"],\n\
StrictNe: [\"\", \"2\", \"1\", \"the next instruction\"],\n\
Lt: [\"\", \"2\", \"1\", \"the next instruction\"],\n\
Le: [\"\", \"2\", \"1\", \"the next instruction\"],\n\
Gt: [\"\", \"2\", \"1\", \"the next instruction\"],\n\
Ge: [\"\", \"2\", \"1\", \"the next instruction\"],\n\
In: [\"\", \"2\", \"1\", \"the next instruction\"],\n\
Instanceof: [\"\", \"2\", \"1\", \"the next instruction\"],\n\
GetElem: [\"\", \"2\", \"1\", \"the next instruction\"],\n\
StrictDelElem: [\"\", \"2\", \"1\", \"the next instruction\"],\n\
GetGName: [\"a text, by its number\", \"0\", \"1\", \"the next instruction\"],\n\
BindGName: [\"a text, by its number\", \"0\", \"1\", \"the next instruction\"],\n\
StrictSetGName: [\"a text, by its number\", \"2\", \"1\", \"the next instruction\"],\n\
InitGLexical: [\"a text, by its number\", \"1\", \"1\", \"the next instruction\"],\n\
ThrowSetConst: [\"a text, by its number\", \"1\", \"1\", \"the next instruction\"],\n\
GetArg: [\"the place of an argument\", \"0\", \"1\", \"the next instruction\"],\n\
SetArg: [\"the place of an argument\", \"1\", \"1\", \"the next instruction\"],\n\
GetLocal: [\"a slot of the frame\", \"0\", \"1\", \"the next instruction\"],\n\
SetLocal: [\"a slot of the frame\", \"1\", \"1\", \"the next instruction\"],\n\
InitLexical: [\"a slot of the frame\", \"1\", \"1\", \"the next instruction\"],\n\
CheckLexical: [\"a slot of the frame\", \"1\", \"1\", \"the next instruction\"],\n\
GetAliasedVar: [\"hops, then a slot of that environment\", \"0\", \"1\", \"the next instruction\"],\n\
SetAliasedVar: [\"hops, then a slot of that environment\", \"1\", \"1\", \"the next instruction\"],\n\
InitAliasedLexical: [\"hops, then a slot of that environment\", \"1\", \"1\", \"the next instruction\"],\n\
CheckAliasedLexical: [\"hops, then a slot of that environment\", \"1\", \"1\", \"the next instruction\"],\n\
NewArray: [\"a count, or the number of a thing\", \"0\", \"1\", \"the next instruction\"],\n\
InitElemArray: [\"a count, or the number of a thing\", \"2\", \"1\", \"the next instruction\"],\n\
InitProp: [\"a text, by its number\", \"2\", \"1\", \"the next instruction\"],\n\
InitPropGetter: [\"a text, by its number\", \"2\", \"1\", \"the next instruction\"],\n\
InitPropSetter: [\"a text, by its number\", \"2\", \"1\", \"the next instruction\"],\n\
InitElem: [\"\", \"3\", \"1\", \"the next instruction\"],\n\
InitElemGetter: [\"\", \"3\", \"1\", \"the next instruction\"],\n\
InitElemSetter: [\"\", \"3\", \"1\", \"the next instruction\"],\n\
MutateProto: [\"\", \"2\", \"1\", \"the next instruction\"],\n\
GetProp: [\"a text, by its number\", \"1\", \"1\", \"the next instruction\"],\n\
StrictSetProp: [\"a text, by its number\", \"2\", \"1\", \"the next instruction\"],\n\
StrictDelProp: [\"a text, by its number\", \"1\", \"1\", \"the next instruction\"],\n\
StrictSetElem: [\"\", \"3\", \"1\", \"the next instruction\"],\n\
Call: [\"a count of arguments, n\", \"n + 2\", \"1\", \"the next instruction\"],\n\
New: [\"a count of arguments, n\", \"n + 3\", \"1\", \"the next instruction\"],\n\
Lambda: [\"a count, or the number of a thing\", \"0\", \"1\", \"the next instruction\"],\n\
JumpTarget: [\"\", \"0\", \"0\", \"the next instruction\"],\n\
LoopHead: [\"\", \"0\", \"0\", \"the next instruction\"],\n\
Goto: [\"a distance in bytes, signed\", \"0\", \"0\", \"the target\"],\n\
JumpIfFalse: [\"a distance in bytes, signed\", \"1\", \"0\", \"the next instruction, or the target\"],\n\
JumpIfTrue: [\"a distance in bytes, signed\", \"1\", \"0\", \"the next instruction, or the target\"],\n\
And: [\"a distance in bytes, signed\", \"1\", \"1\", \"the next instruction, or the target\"],\n\
Or: [\"a distance in bytes, signed\", \"1\", \"1\", \"the next instruction, or the target\"],\n\
Coalesce: [\"a distance in bytes, signed\", \"1\", \"1\", \"the next instruction, or the target\"],\n\
Case: [\"a distance in bytes, signed\", \"2\", \"1\", \"the next instruction, or the target\"],\n\
Default: [\"a distance in bytes, signed\", \"1\", \"0\", \"the target\"],\n\
Return: [\"\", \"1\", \"0\", \"nowhere\"],\n\
SetRval: [\"\", \"1\", \"0\", \"the next instruction\"],\n\
RetRval: [\"\", \"0\", \"0\", \"nowhere\"],\n\
Throw: [\"\", \"1\", \"0\", \"nowhere\"],\n\
Try: [\"\", \"0\", \"0\", \"the next instruction\"],\n\
Iter: [\"\", \"1\", \"1\", \"the next instruction\"],\n\
MoreIter: [\"\", \"1\", \"2\", \"the next instruction\"],\n\
IsNoIter: [\"\", \"1\", \"2\", \"the next instruction\"],\n\
EndIter: [\"\", \"2\", \"0\", \"the next instruction\"],\n\
Debugger: [\"\", \"0\", \"0\", \"the next instruction\"],\n\
PushLexicalEnv: [\"a count, or the number of a thing\", \"0\", \"0\", \"the next instruction\"],\n\
PopLexicalEnv: [\"\", \"0\", \"0\", \"the next instruction\"],\n\
FreshenLexicalEnv: [\"\", \"0\", \"0\", \"the next instruction\"],\n\
GlobalOrEvalDeclInstantiation: [\"a count, or the number of a thing\", \"0\", \"0\", \"the next instruction\"],\n\
Pop: [\"\", \"1\", \"0\", \"the next instruction\"],\n\
Dup: [\"\", \"1\", \"2\", \"the next instruction\"],\n\
Dup2: [\"\", \"2\", \"4\", \"the next instruction\"],\n\
Swap: [\"\", \"2\", \"2\", \"the next instruction\"],\n\
Pick: [\"a place on the stack below the top, n\", \"n + 1\", \"n + 1\", \"the next instruction\"],\n\
Unpick: [\"a place on the stack below the top, n\", \"n + 1\", \"n + 1\", \"the next instruction\"],\n\
Rest: [\"\", \"0\", \"1\", \"the next instruction\"],\n\
PushVarEnv: [\"a count, or the number of a thing\", \"0\", \"0\", \"the next instruction\"]\n\
};\n\
var names = { \"the place of an argument\": true, \"a slot of the frame\": true, \"hops, then a slot of that environment\": true };\n\
var jump = \"a distance in bytes, signed\";\n\
// A token, a piece of a comment, a piece of a template, each from a place on.\n\
var token = new RegExp([\n\
\"\\\\s+\", \"\\\\/\\\\/.*\", \"\\\\/\\\\*\",\n\
\"\\\"[^\\\"\\\\\\\\]*(?:\\\\\\\\.[^\\\"\\\\\\\\]*)*\\\"?\",\n\
\"'[^'\\\\\\\\]*(?:\\\\\\\\.[^'\\\\\\\\]*)*'?\",\n\
\"[\\\\p{ID_Start}$_][\\\\p{ID_Continue}$\\\\u200c\\\\u200d]*\", \"[\\\\d.]+\", \".\"\n\
].join(\"|\"), \"uy\");\n\
var inComment = /.*?\\*\\/|.+/y;\n\
var inTemplate = /((?:[^\\\\`$]|\\\\.?|\\$(?!\\{))*(?:`|\\$\\{))|.+/y;\n\
var marked = [];\n\
var filter;\n\
\n\
function each(list, what) { Array.prototype.forEach.call(list, what); }\n\
function make(kind, name, text) {\n\
var element = document.createElement(kind);\n\
element.className = name;\n\
element.textContent = text;\n\
return element;\n\
}\n\
function mark(element, how) {\n\
if (!element) { return; }\n\
element.classList.add(how);\n\
element.setAttribute(\"data-selected\", how);\n\
marked.push([element, how]);\n\
}\n\
function forget() {\n\
marked.forEach(function (one) {\n\
one[0].classList.remove(one[1]);\n\
one[0].removeAttribute(\"data-selected\");\n\
if (one[0].tagName === \"PRE\") { one[0].tabIndex = -1; }\n\
});\n\
marked = [];\n\
if (CSS.highlights) { CSS.highlights.clear(); }\n\
each(document.querySelectorAll(\".opcode\"), function (row) { row.textContent = \"\"; });\n\
}\n\
function highlight(kind, ranges) {\n\
if (CSS.highlights && ranges.length) {\n\
var all = new Highlight();\n\
ranges.forEach(function (range) { all.add(range); });\n\
CSS.highlights.set(kind, all);\n\
}\n\
}\n\
// Scrolls the pane of an element so that it is seen, and not the page.\n\
function reveal(element) {\n\
var pane = element && element.closest(\".pane\");\n\
if (!pane) { return; }\n\
var at = element.getBoundingClientRect();\n\
var seen = pane.getBoundingClientRect();\n\
var above = element.closest(\".tab\") ? 96 : 24;\n\
if (at.top < seen.top + above) {\n\
pane.scrollTop += at.top - seen.top - above;\n\
} else if (at.bottom > seen.bottom) {\n\
pane.scrollTop += Math.min(at.bottom - seen.bottom + 24, at.top - seen.top - above);\n\
}\n\
}\n\
\n\
// Tabs.\n\
function show(file, name) {\n\
if (!file.querySelector('.tab[data-tab=\"' + name + '\"]')) { return; }\n\
each(file.querySelectorAll(\".tab\"), function (tab) { tab.classList.toggle(\"hidden\", tab.getAttribute(\"data-tab\") !== name); });\n\
each(file.querySelectorAll(\"nav.tabs button\"), function (button) {\n\
var on = button.textContent === name;\n\
button.setAttribute(\"aria-selected\", on ? \"true\" : \"false\");\n\
button.tabIndex = on ? 0 : -1;\n\
});\n\
}\n\
function addTabs(file) {\n\
var first = file.querySelector(\".tab\");\n\
var bar = make(\"nav\", \"tabs\", \"\");\n\
bar.setAttribute(\"role\", \"tablist\");\n\
each(file.querySelectorAll(\".tab\"), function (tab) {\n\
var button = make(\"button\", \"\", tab.getAttribute(\"data-tab\"));\n\
tab.setAttribute(\"role\", \"tabpanel\");\n\
button.setAttribute(\"role\", \"tab\");\n\
button.addEventListener(\"click\", function () { show(file, button.textContent); });\n\
bar.appendChild(button);\n\
});\n\
bar.addEventListener(\"keydown\", function (event) {\n\
var step = event.key === \"ArrowRight\" ? 1 : event.key === \"ArrowLeft\" ? -1 : 0;\n\
var all = Array.prototype.slice.call(bar.children);\n\
var next = all[all.indexOf(event.target) + step];\n\
if (step && next) {\n\
next.click();\n\
next.focus();\n\
}\n\
});\n\
if (!first) { return; }\n\
first.parentNode.insertBefore(bar, first);\n\
each(file.querySelectorAll('.tab[data-tab=\"code\"]'), function (tab) { tab.insertBefore(make(\"p\", \"opcode\", \"\"), tab.children[1]); });\n\
show(file, file.querySelector('.tab[data-tab=\"code\"]') ? \"code\" : first.getAttribute(\"data-tab\"));\n\
}\n\
\n\
// Lines of a listing or a tree, each an element; made when they are first asked for.\n\
function lines(pre) {\n\
if (!pre.classList.contains(\"split\")) {\n\
var texts = pre.textContent.split(\"\\n\");\n\
if (texts[texts.length - 1] === \"\") { texts.pop(); }\n\
pre.textContent = \"\";\n\
texts.forEach(function (text) { pre.appendChild(make(\"span\", \"line\", text + \"\\n\")); });\n\
pre.classList.add(\"split\");\n\
}\n\
return pre.children;\n\
}\n\
function text(words) {\n\
try { return JSON.parse(words); } catch (error) { return words; }\n\
}\n\
function decoded(words) {\n\
try { return decodeURIComponent(words); } catch (error) { return words; }\n\
}\n\
// What a line of a listing is: an instruction, with the target of its jump or the binding that it names.\n\
function instruction(line, number) {\n\
var found = /^ {2}(\\d+) (\\w+) ?(.*)$/.exec(line.replace(/\\n$/, \"\"));\n\
if (!found || !opcodes[found[2]]) { return null; }\n\
var note = / *; ([^\"]*)$/.exec(found[3]);\n\
var operand = note ? found[3].slice(0, note.index) : found[3];\n\
var made = { at: Number(found[1]), op: found[2], operand: operand, to: null, name: null, owner: null };\n\
if (opcodes[made.op][0] === jump) { made.to = Number(operand); }\n\
if (/GName$/.test(made.op)) {\n\
made.name = text(operand);\n\
made.owner = 0;\n\
} else if (note && names[opcodes[made.op][0]]) {\n\
note[1].split(\", \").forEach(function (part) {\n\
var bound = /^([^ ]+)(?: of (?:function (\\d+)|(the script)))?$/.exec(part);\n\
if (bound && !/^\\d+$|^catch$/.test(part)) {\n\
made.name = bound[1];\n\
made.owner = bound[2] ? Number(bound[2]) : bound[3] ? 0 : number;\n\
}\n\
});\n\
}\n\
return made;\n\
}\n\
// The function and its scopes that a line of the tree of scopes stands in, and the name that it binds.\n\
function walkScopes(file, what) {\n\
var pre = file.querySelector('.tab[data-tab=\"scopes\"] pre');\n\
var owner = 0;\n\
each(pre ? lines(pre) : [], function (line) {\n\
var head = /^(?:[|` -]*-- )?function (\\d+)( |\\n)/.exec(line.textContent);\n\
var bound = /-- (?:param|var|let|const|function|catch|callee|arguments|this) ([^ ]+) \\(/.exec(line.textContent);\n\
if (head) { owner = Number(head[1]); }\n\
what(line, owner, head || !bound ? null : bound[1]);\n\
});\n\
}\n\
\n\
// The number of the function that an address or an element's name ends with.\n\
function number(words) { return Number(/n(\\d+)$/.exec(words)[1]); }\n\
function numberOf(link) { return number(link.getAttribute(\"href\")); }\n\
\n\
// The source.\n\
function rows(file) { return file.querySelectorAll(\"table.source tr\"); }\n\
function place(words) {\n\
var parts = words.split(\":\");\n\
return { line: Number(parts[0]), column: Number(parts[1]) };\n\
}\n\
function extent(link) {\n\
if (!link || !link.hasAttribute(\"data-from\")) { return null; }\n\
return { from: place(link.getAttribute(\"data-from\")), to: place(link.getAttribute(\"data-to\")) };\n\
}\n\
function isBefore(one, other) { return one.line < other.line || (one.line === other.line && one.column <= other.column); }\n\
function range(row, from, to) {\n\
var node = row && row.lastChild.firstChild;\n\
if (!node) { return null; }\n\
var made = document.createRange();\n\
made.setStart(node, Math.min(from, node.length));\n\
made.setEnd(node, Math.min(to, node.length));\n\
return made;\n\
}\n\
function markExtent(file, link) {\n\
var at = extent(link);\n\
var all = rows(file);\n\
var ranges = [];\n\
if (!at) { return null; }\n\
for (var line = at.from.line; line <= at.to.line; line += 1) {\n\
var row = all[line - 1];\n\
var made = range(row, line === at.from.line ? at.from.column - 1 : 0, line === at.to.line ? at.to.column - 1 : Infinity);\n\
mark(row, \"within\");\n\
if (made) { ranges.push(made); }\n\
}\n\
highlight(\"function\", ranges);\n\
return all[at.from.line - 1];\n\
}\n\
// The next piece of a line, and what the text behind it is: code, a comment or a template.\n\
function next(state, line, at) {\n\
var kind = state.kind === \"comment\" ? inComment : state.kind === \"template\" ? inTemplate : token;\n\
kind.lastIndex = at;\n\
var found = kind.exec(line);\n\
var piece = found ? found[0] : line[at];\n\
if (kind === inComment) {\n\
if (/\\*\\/$/.test(piece)) { state.kind = \"\"; }\n\
} else if (kind === inTemplate) {\n\
if (found && found[1]) { state.kind = \"\"; }\n\
if (found && found[1] && /\\{$/.test(piece)) { state.open.push(state.depth); }\n\
} else if (piece === \"/*\") {\n\
state.kind = \"comment\";\n\
} else if (piece === \"`\") {\n\
state.kind = \"template\";\n\
} else if (piece === \"{\") {\n\
state.depth += 1;\n\
} else if (piece === \"}\" && state.open[state.open.length - 1] === state.depth) {\n\
state.open.pop();\n\
state.kind = \"template\";\n\
} else if (piece === \"}\") {\n\
state.depth -= 1;\n\
}\n\
return { text: piece, isCode: kind === token };\n\
}\n\
// Whether an identifier is the name of a property by what stands in front of it and behind it.\n\
function isProperty(before, behind) { return before === \".\" || (/^[{,]?$/.test(before) && /^\\s*:/.test(behind)); }\n\
// The identifiers of this spelling in the source that are no names of properties, each with its place.\n\
function spellings(file, name) {\n\
var found = [];\n\
var state = { kind: \"\", depth: 0, open: [] };\n\
each(rows(file), function (row, index) {\n\
var line = row.lastChild.textContent;\n\
var before = \"\";\n\
for (var at = 0; at < line.length;) {\n\
var piece = next(state, line, at);\n\
var end = at + piece.text.length;\n\
if (piece.isCode && piece.text === name && !isProperty(before, line.slice(end, end + 40))) {\n\
found.push({ row: row, line: index + 1, column: at + 1, length: name.length });\n\
}\n\
if (/\\S/.test(piece.text)) { before = piece.text; }\n\
at = end;\n\
}\n\
});\n\
return found;\n\
}\n\
function innermost(file, at) {\n\
var found = null;\n\
each(file.querySelectorAll(\".functions a\"), function (link) {\n\
var here = extent(link);\n\
if (here && isBefore(here.from, at) && isBefore(at, here.to)) { found = link; }\n\
});\n\
return found;\n\
}\n\
\n\
// Marks a binding in all panes: where it is bound, the instructions that name it, and its spellings in the source.\n\
function markName(file, name, owner) {\n\
var others = {};\n\
walkScopes(file, function (line, inside, bound) {\n\
if (bound !== name) { return; }\n\
if (inside === owner) {\n\
mark(line, \"name\");\n\
} else {\n\
others[inside] = true;\n\
}\n\
});\n\
each(file.querySelectorAll(\".tab pre[id]\"), function (pre) {\n\
var inside = number(pre.id);\n\
if (pre.textContent.indexOf(name) < 0 && pre.textContent.indexOf(\"GName\") < 0) { return; }\n\
each(lines(pre), function (line) {\n\
var one = instruction(line.textContent, inside);\n\
if (one && one.name === name && one.owner === owner) { mark(line, \"name\"); }\n\
});\n\
});\n\
each(file.querySelectorAll(\"table.closed tr[data-owner]\"), function (row) {\n\
if (Number(row.getAttribute(\"data-owner\")) === owner && row.firstChild.textContent === name) { mark(row, \"name\"); }\n\
});\n\
var whole = extent(file.querySelector('.functions a[href$=\"n' + owner + '\"]'));\n\
var ranges = [];\n\
var declared = null;\n\
spellings(file, name).forEach(function (one) {\n\
var link = innermost(file, one);\n\
if (!whole || !isBefore(whole.from, one) || !isBefore(one, whole.to)) { return; }\n\
while (link && numberOf(link) !== owner) {\n\
if (others[numberOf(link)]) { return; }\n\
var item = link.closest(\"ul\").closest(\"li\");\n\
link = item && item.querySelector(\"a\");\n\
}\n\
mark(one.row, \"has-name\");\n\
declared = declared || one.row;\n\
ranges.push(range(one.row, one.column - 1, one.column - 1 + one.length));\n\
});\n\
highlight(\"name\", ranges);\n\
return declared;\n\
}\n\
// Marks an instruction, the target of its jump and all that jump to it, and says what its opcode takes and gives.\n\
function markInstruction(file, pre, inside, at) {\n\
var chosen = null;\n\
each(lines(pre), function (line) {\n\
var one = instruction(line.textContent, inside);\n\
if (one && one.at === at) { chosen = { line: line, is: one }; }\n\
});\n\
if (!chosen) { return; }\n\
each(lines(pre), function (line) {\n\
var one = instruction(line.textContent, inside);\n\
if (one && one.to === at) { mark(line, \"from\"); }\n\
if (one && chosen.is.to === one.at) { mark(line, \"to\"); }\n\
});\n\
if (chosen.is.name !== null) { markName(file, chosen.is.name, chosen.is.owner); }\n\
mark(chosen.line, \"on\");\n\
var row = opcodes[chosen.is.op];\n\
var words = chosen.is.op + \": \" + (row[0] ? \"operand \" + row[0] + \"; \" : \"\");\n\
file.querySelector(\".opcode\").textContent = words + \"takes \" + row[1] + \", gives \" + row[2] + \"; goes to \" + row[3];\n\
show(file, \"code\");\n\
reveal(chosen.line);\n\
}\n\
function markFunction(file, link, id) {\n\
mark(link, \"on\");\n\
var code = document.getElementById(id);\n\
mark(code, \"within\");\n\
if (code) { code.tabIndex = 0; }\n\
var first = markExtent(file, link);\n\
walkScopes(file, function (line, inside, bound) { if (inside === numberOf(link)) { mark(line, \"within\"); } });\n\
each(file.querySelectorAll('svg a[href=\"#' + id + '\"]'), function (box) { mark(box, \"on\"); });\n\
each(file.querySelectorAll(\"path.use\"), function (arrow) {\n\
var is = [arrow.getAttribute(\"data-user\"), arrow.getAttribute(\"data-owner\")].indexOf(String(numberOf(link))) >= 0;\n\
if (is) { mark(arrow, \"on\"); }\n\
});\n\
return [link, first, code, file.querySelector(\".tab:not(.hidden) .line.within\"), file.querySelector(\".tab:not(.hidden) svg a.on\")];\n\
}\n\
\n\
// Shows what the page's address names: a function, an instruction or a name of it, or a line.\n\
function select() {\n\
var parts = /^#f(\\d+)(?:n(\\d+)(?:i(\\d+)|=(.*))?|l(\\d+))$/.exec(location.hash);\n\
var file = parts && document.getElementById(\"f\" + parts[1]);\n\
if (!file) { return; }\n\
forget();\n\
file.open = true;\n\
if (parts[5]) {\n\
mark(document.getElementById(\"f\" + parts[1] + \"l\" + parts[5]), \"on\");\n\
reveal(document.getElementById(\"f\" + parts[1] + \"l\" + parts[5]));\n\
return;\n\
}\n\
var id = \"f\" + parts[1] + \"n\" + parts[2];\n\
var link = file.querySelector('.functions a[href=\"#' + id + '\"]');\n\
if (!link) { return; }\n\
markFunction(file, link, id).forEach(reveal);\n\
if (parts[3] && document.getElementById(id)) { markInstruction(file, document.getElementById(id), Number(parts[2]), Number(parts[3])); }\n\
if (parts[4]) {\n\
reveal(markName(file, decoded(parts[4]), Number(parts[2])));\n\
}\n\
}\n\
function go(hash) {\n\
if (location.hash !== hash) { history.pushState(null, \"\", hash); }\n\
select();\n\
}\n\
// The unit of a line's text at which a pointer is.\n\
function caret(event) {\n\
if (document.caretPositionFromPoint) {\n\
var spot = document.caretPositionFromPoint(event.clientX, event.clientY);\n\
return spot ? spot.offset : 0;\n\
}\n\
var near = document.caretRangeFromPoint(event.clientX, event.clientY);\n\
return near ? near.startOffset : 0;\n\
}\n\
function clicked(event) {\n\
var link = event.target.closest('a[href^=\"#\"]');\n\
var file = event.target.closest(\"details\");\n\
var line = event.target.closest(\".line\");\n\
var row = event.target.closest(\"table.source tr\");\n\
if (!link && !getSelection().isCollapsed) { return; }\n\
if (link) {\n\
event.preventDefault();\n\
go(link.getAttribute(\"href\"));\n\
} else if (line && line.parentNode.id) {\n\
var inside = number(line.parentNode.id);\n\
var one = instruction(line.textContent, inside);\n\
go(\"#\" + line.parentNode.id + (one ? \"i\" + one.at : \"\"));\n\
} else if (line) {\n\
walkScopes(file, function (other, owner, bound) {\n\
if (other === line) { go(\"#\" + file.id + \"n\" + owner + (bound === null ? \"\" : \"=\" + encodeURIComponent(bound))); }\n\
});\n\
} else if (event.target.closest(\"table.closed tr[data-owner]\")) {\n\
var bound = event.target.closest(\"tr\");\n\
go(\"#\" + file.id + \"n\" + bound.getAttribute(\"data-owner\") + \"=\" + encodeURIComponent(bound.firstChild.textContent));\n\
} else if (row && file.classList.contains(\"file\")) {\n\
var at = { line: row.rowIndex + 1, column: event.target === row.lastChild ? caret(event) + 1 : Infinity };\n\
var around = innermost(file, at) || file.querySelector(\".functions a\");\n\
go(around.getAttribute(\"href\"));\n\
}\n\
}\n\
// The lines of a listing are made before they can be clicked; with arrows the selection goes from an instruction to the next.\n\
function prepare(event) {\n\
var pre = event.target.closest && event.target.closest(\".tab pre\");\n\
if (pre) { lines(pre); }\n\
}\n\
function moved(event) {\n\
var pre = event.target.closest(\"pre[id]\");\n\
var step = event.key === \"ArrowDown\" ? 1 : event.key === \"ArrowUp\" ? -1 : 0;\n\
if (!pre || !step) { return; }\n\
event.preventDefault();\n\
var all = lines(pre);\n\
var at = Array.prototype.findIndex.call(all, function (line) { return line.classList.contains(\"on\"); });\n\
var next = all[Math.max(at + step, 1)];\n\
var one = next && instruction(next.textContent, 0);\n\
if (one) { go(\"#\" + pre.id + \"i\" + one.at); }\n\
}\n\
\n\
// The filter of functions by name: of those that have the text in it, and of those around them.\n\
function matches(link) { return link.textContent.replace(/^function \\d+ /, \"\").toLowerCase().indexOf(filter.value.toLowerCase()) >= 0; }\n\
function narrow() {\n\
each(document.querySelectorAll(\".functions li\"), function (item) {\n\
item.classList.toggle(\"hidden\", !Array.prototype.some.call(item.querySelectorAll(\"a\"), matches));\n\
});\n\
}\n\
function addFilter() {\n\
filter = make(\"input\", \"\", \"\");\n\
filter.type = \"search\";\n\
filter.placeholder = \"functions by name: /\";\n\
filter.setAttribute(\"aria-label\", \"functions by name\");\n\
filter.addEventListener(\"input\", narrow);\n\
filter.addEventListener(\"keydown\", function (event) {\n\
var found = Array.prototype.find.call(document.querySelectorAll(\".functions a\"), matches);\n\
if (event.key === \"Enter\" && found) { go(found.getAttribute(\"href\")); }\n\
if (event.key === \"Escape\") {\n\
filter.value = \"\";\n\
narrow();\n\
filter.blur();\n\
}\n\
});\n\
document.querySelector(\"h1\").after(filter);\n\
document.addEventListener(\"keydown\", function (event) {\n\
if (event.key === \"/\" && event.target !== filter) {\n\
event.preventDefault();\n\
filter.focus();\n\
} else {\n\
moved(event);\n\
}\n\
});\n\
}\n\
\n\
each(document.querySelectorAll(\"details.file\"), addTabs);\n\
each(document.querySelectorAll(\".tab pre\"), function (pre) { pre.tabIndex = pre.id ? -1 : 0; });\n\
addFilter();\n\
document.addEventListener(\"click\", clicked);\n\
document.addEventListener(\"mouseover\", prepare);\n\
window.addEventListener(\"hashchange\", select);\n\
window.addEventListener(\"popstate\", select);\n\
select();\n\
}());\n\
";
