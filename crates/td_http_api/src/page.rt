//! The page, and what a browser may do for it. `./td page` makes this of the files in crates/td_http_api/page.

/// One script and one style, named by their digests, nothing from elsewhere, and calls to this site alone.
pub(crate) const POLICY: &str = "default-src 'none'; \
    script-src 'sha256-OyVaclARzl3Y8U7vP8Mx4g9P9WGB4l+38ngx6TmKtDQ='; \
    style-src 'sha256-llRg+BEp4mIq8L2hLG968D4hUT+PhmdgQH5ZJsFew+o='; \
    img-src data:; connect-src 'self'; base-uri 'none'; form-action 'none'; frame-ancestors 'none'; \
    require-trusted-types-for 'script'; trusted-types 'none'";

pub(crate) const PAGE: &str = r##"<!doctype html>
<html lang="en">
<meta charset="utf-8">
<meta name="viewport" content="width=device-width, initial-scale=1">
<title>Ketsarimo</title>
<link rel="icon" href="data:,">
<style>
:root{--page:#f4f6f8;--card:#fff;--ink:#1a2026;--soft:#56616c;--line:#dce1e6;--edge:#84909b;--shade:#eef1f4;--main:#0f6579;--on-main:#fff;--tint:#e3f1f4;--bad:#a3201d;--bad-tint:#fdecea;--warn:#7a4b00;--warn-tint:#fff3d9;--good:#1b6a38;--good-tint:#e6f4ea;--head:#123f4d;--ring:#b86e00;color-scheme:light}
@media (prefers-color-scheme:dark){:root{--page:#12171c;--card:#1b2229;--ink:#e6ebf0;--soft:#9fabb7;--line:#323c46;--edge:#75828f;--shade:#28313a;--main:#5cc0d6;--on-main:#06222a;--tint:#17353e;--bad:#ff9a92;--bad-tint:#3d1d1c;--warn:#f3c56b;--warn-tint:#3a2d12;--good:#86d6a0;--good-tint:#173323;--head:#0c2b35;--ring:#ffb444;color-scheme:dark}}
*{box-sizing:border-box}
[hidden]{display:none !important}
html,body{height:100%}
body{margin:0;font:15px/1.45 system-ui,"DejaVu Sans",sans-serif;color:var(--ink);background:var(--page);display:grid;grid-template:3.25rem auto minmax(0,1fr) / 15rem minmax(0,1fr) auto;grid-template-areas:"top top top" "say say say" "nav main panel"}
:focus-visible{outline:3px solid var(--ring);outline-offset:1px}
header{grid-area:top;background:var(--head);color:#fff;display:flex;align-items:center;gap:.75rem;padding:0 1rem}
h1{font-size:1.05rem;margin:0;white-space:nowrap}
header button{background:rgb(255 255 255 / .12);color:#fff;border-color:transparent}
#state{display:block;flex:1;min-width:0;overflow:hidden;text-overflow:ellipsis;text-align:left;background:none;color:#fff}
#state::before{content:"";display:inline-block;width:.65em;height:.65em;border-radius:50%;background:#6fd08c;margin-right:.5em}
#state.warn::before{background:#ffc24d}
#state.bad::before{background:#ff7a70}
#alarm{background:#ffc24d;color:#3a2600;font-weight:600}
#menu{display:none}
#notices{grid-area:say;max-height:40vh;overflow:auto}
#notices .note{margin:0;border-radius:0;padding:.5rem 1.25rem;border-bottom:1px solid var(--line)}
nav{grid-area:nav;overflow:auto;padding:.75rem .6rem;background:var(--card);border-right:1px solid var(--line)}
nav h2{font-size:.8rem;color:var(--soft);margin:.9rem .6rem .25rem}
nav a{display:flex;justify-content:space-between;gap:.5rem;align-items:center;min-height:2.2rem;padding:.2rem .6rem;border-radius:6px;color:inherit;text-decoration:none;overflow-wrap:anywhere}
nav a:hover{background:var(--shade)}
nav a[aria-current]{background:var(--tint);color:var(--main);font-weight:600}
nav a span + span{color:var(--soft);font-variant-numeric:tabular-nums;font-weight:400}
nav a span.hot{background:#c0392b;color:#fff;border-radius:9px;padding:0 .5em;font-weight:600}
main{grid-area:main;overflow:auto;padding:1rem 1.25rem 3rem;outline:none}
#panel{grid-area:panel;width:26rem;overflow:auto;background:var(--card);border-left:1px solid var(--line);padding:1rem 1.1rem 2rem}
main>h2,.head h2{font-size:1.35rem;margin:0;overflow-wrap:anywhere}
h3{margin:1.2rem 0 .4rem}
.bar{display:flex;flex-wrap:wrap;gap:.5rem;align-items:center;margin:.6rem 0}
.bar>.grow{flex:1}
.bar>input.grow{min-width:8rem}
.head{margin-top:0;flex-wrap:nowrap}
.quiet{color:var(--soft);font-size:.87rem}
.bad{color:var(--bad)}
.warn{color:var(--warn)}
.good{color:var(--good)}
.note{border-radius:8px;padding:.6rem .8rem;margin:.6rem 0;background:var(--tint);overflow-wrap:anywhere}
.note.bad,.tag.bad{background:var(--bad-tint)}
.note.warn,.tag.warn,.differs{background:var(--warn-tint)}
.note.good,.tag.good{background:var(--good-tint)}
.differs{color:var(--warn);border-radius:3px;padding:0 .25em}
.tag{border-radius:4px;padding:0 .4em;font-size:.8rem;background:var(--shade);white-space:nowrap}
.empty{padding:2.5rem 1rem;text-align:center;color:var(--soft)}
.busy{opacity:.55}
button,input,select,textarea,.button{font:inherit;color:inherit;border:1px solid var(--edge);border-radius:6px;background:var(--card);min-height:2.2rem;padding:.25rem .7rem}
button,.button{cursor:pointer;display:inline-flex;align-items:center;justify-content:center;white-space:nowrap;text-decoration:none;color:var(--ink);border-color:var(--line)}
button:disabled{opacity:.5;cursor:default}
button.main,.button.main{background:var(--main);color:var(--on-main);border-color:var(--main);font-weight:600}
button.danger{color:var(--bad)}
button.plain{border:0;background:none;padding:0 .3rem;color:var(--main);text-decoration:underline;min-height:0}
input[type=checkbox]{min-height:0;width:1.15rem;height:1.15rem;margin:0 .5rem 0 0;flex:none}
.tick{display:flex;margin:.35rem 0;min-height:1.6rem}
textarea{width:100%;min-height:6rem}
textarea,pre{font:13px/1.45 ui-monospace,"DejaVu Sans Mono",monospace}
pre{white-space:pre-wrap;overflow-wrap:anywhere;margin:.3rem 0;background:var(--shade);padding:.5rem .6rem;border-radius:6px}
.chip{background:var(--tint);color:var(--main);border-radius:99px;padding:.1rem .2rem .1rem .7rem}
.chip button{border:0;background:none;min-height:1.7rem;padding:0 .4rem;color:inherit}
summary{cursor:pointer;color:var(--soft);min-height:1.8rem}
.choices{position:absolute;left:0;right:0;z-index:5;padding:.2rem;max-height:15rem;overflow:auto;background:var(--card);border:1px solid var(--line);border-radius:8px;box-shadow:0 6px 24px rgb(0 0 0 / .25)}
dialog{border:1px solid var(--line);border-radius:10px;background:var(--card);color:inherit;max-width:24rem;padding:1.2rem}
#toast{position:fixed;left:50%;bottom:1.2rem;transform:translateX(-50%);background:#17242b;color:#fff;z-index:8;border-radius:8px;padding:.6rem 1rem;max-width:90vw;pointer-events:none}
#toast:empty{display:none}
.wide{overflow:auto;border:1px solid var(--line);border-radius:8px;background:var(--card)}
.grid{width:fit-content;min-width:min(36rem,100%);max-width:100%;max-height:calc(100vh - 18rem)}
table{border-collapse:separate;border-spacing:0;width:100%}
th,td{text-align:left;vertical-align:top;padding:.4rem .8rem;border-bottom:1px solid var(--shade);max-width:22rem;overflow-wrap:break-word}
th{position:sticky;top:0;background:var(--card);border-color:var(--line);white-space:nowrap;z-index:1;padding:0}
th>*{display:flex;padding:.4rem .8rem;border:0;font-weight:600;width:100%;justify-content:flex-start}
th.n>*,td.n{text-align:right;justify-content:flex-end;font-variant-numeric:tabular-nums}
.grid td:first-child,.grid th:first-child{position:sticky;left:0;background:var(--card);z-index:1}
.grid th:first-child{z-index:2}
.value{display:-webkit-box;-webkit-line-clamp:2;-webkit-box-orient:vertical;overflow:hidden;unicode-bidi:isolate}
td.n .value{display:block;white-space:nowrap}
button.open{border:0;background:none;padding:0;min-height:0;color:var(--main);text-align:left;white-space:normal;font-weight:600;unicode-bidi:isolate;justify-content:flex-start}
.grid tbody tr{cursor:pointer}
.grid tbody tr:hover td,.grid tr.on td{background:var(--tint)}
@keyframes fresh{from{background:var(--warn-tint)}}
tr.fresh td{animation:fresh 2.5s}
.field{margin:.7rem 0;position:relative}
.field>label,.field>.label{display:block;font-weight:600;font-size:.9rem;margin-bottom:.15rem}
.field input,.field select{width:100%}
.parts{display:flex;gap:.5rem}
.parts label{flex:1;font-size:.82rem;color:var(--soft)}
.parts input,.parts select{font-size:1rem;color:var(--ink)}
.fault{color:var(--bad);font-size:.88rem}
.fault:not(:empty) + .hint{display:none}
.hint,.mark{color:var(--soft);font-size:.82rem;font-weight:400}
[aria-invalid=true]{border-color:var(--bad);box-shadow:0 0 0 1px var(--bad)}
.choices button{display:flex;justify-content:space-between;gap:1rem;width:100%;border:0}
.choices button{white-space:normal}
.choices button:hover,.choices button:focus{background:var(--tint)}
.card{background:var(--card);border:1px solid var(--line);border-radius:8px;padding:.7rem .9rem;margin:.6rem 0}
.hot.card{border-left:4px solid #c0392b}
.card p{margin:.2rem 0}
.top{display:flex;flex-wrap:wrap;gap:.2rem .6rem;align-items:baseline;justify-content:space-between}
.two{display:grid;grid-template-columns:1fr 1fr;gap:.75rem}
h4{margin:.3rem 0;font-size:.85rem;color:var(--soft)}
dl{display:grid;grid-template-columns:max-content minmax(0,1fr);gap:.1rem .7rem;margin:0}
dt{color:var(--soft);font-size:.87rem}
dd{margin:0;overflow-wrap:anywhere;unicode-bidi:isolate}
.paper,.onphone{display:none}
@media (max-width:60rem){#panel{position:fixed;inset:3.25rem 0 0 auto;width:min(26rem,100vw);box-shadow:-6px 0 24px rgb(0 0 0 / .25);z-index:4}}
@media (max-width:44rem){body{font-size:16px;grid-template:3.25rem auto minmax(0,1fr) / minmax(0,1fr);grid-template-areas:"top" "say" "main"}
header{padding:0 .4rem;gap:.4rem}
button,input,select,.button,nav a,summary,.tick{min-height:44px}
button.plain,button.open,input[type=checkbox]{min-height:0}
.chip button{min-height:36px}
input[type=checkbox]{width:1.5rem;height:1.5rem}
#menu,.onphone{display:inline-flex}
#who{display:block;max-width:6.5rem;overflow:hidden;text-overflow:ellipsis;flex:none}
nav{position:fixed;inset:3.25rem auto 0 0;width:17rem;max-width:85vw;z-index:6;visibility:hidden}
nav.open{visibility:visible;box-shadow:6px 0 24px rgb(0 0 0 / .3)}
main{padding:.75rem .75rem 5rem}
#panel{inset:3.25rem 0 0 0;width:100vw;padding:.75rem .9rem 6rem}
.two{grid-template-columns:1fr}
.grid{border:0;background:none;max-height:none;overflow:visible;width:auto;min-width:0}
.grid table,.grid tbody,.grid tr{display:block}
.grid thead{display:none}
.grid tr{background:var(--card);border:1px solid var(--line);border-radius:8px;margin:.5rem 0;padding:.4rem .8rem}
.grid td,.grid td:first-child{position:static;background:none !important;border:0;padding:.1rem 0;height:auto;max-width:none;text-align:left;display:grid;grid-template-columns:8rem minmax(0,1fr);align-items:baseline}
.grid td::before{content:attr(data-label);color:var(--soft);font-size:.85rem}
.grid td:first-child{min-height:36px}
.acts{position:sticky;bottom:-6rem;background:var(--card);padding:.6rem 0}}
@media print{body{display:block;background:#fff;color:#000;font-size:10pt}
header,nav,#panel,#notices,#toast,.bar{display:none !important}
main{padding:0;overflow:visible}
.grid{max-height:none;overflow:visible;border:0}
.paper{display:block}
thead{display:table-header-group}
.grid th,.grid th:first-child,.grid td:first-child{position:static;background:none}
tr{break-inside:avoid}
button.open{color:#000;font-weight:400}
.value{-webkit-line-clamp:none}}
</style>
<header>
<button id="menu" aria-label="Lists and pages" aria-expanded="false" aria-controls="nav">☰</button>
<h1 id="name">Site</h1>
<button id="state" aria-live="polite" title="Other sites">…</button>
<button id="alarm" hidden></button>
<button id="who">Your name</button>
</header>
<div id="notices" role="status" aria-live="polite"></div>
<nav id="nav" aria-label="Lists and pages"></nav>
<main id="main" tabindex="-1"></main>
<aside id="panel" hidden aria-label="Entry"></aside>
<div id="toast" role="status" aria-live="polite"></div>
<dialog id="ask" aria-labelledby="asktitle">
<form method="dialog">
<h3 id="asktitle">Who is writing?</h3>
<p class="quiet">Your name is put before what you enter, at all sites. It is kept in this tab only.</p>
<label>Name <input id="nameinput" maxlength="40" autocomplete="name"></label>
<div class="bar"><button class="main" value="ok" id="nameok">Use this name</button>
<button value="no" id="nameno" formnovalidate>Without a name</button></div>
</form>
</dialog>
<script>
'use strict';{

const TOKEN=/\s+|\/\*[^]*?\*\/|'(?:[^']|'')*'|[A-Za-z0-9_#]+|:=|<=|>=|<>|\|\||[^]/g;const BRACKETS={'(':1,'{':1,')':-1,'}':-1};class Source{constructor(text){this.text=text;this.tokens=[...text.matchAll(TOKEN)].filter(token=>!/^(?:\s|\/\*)/.test(token[0]));}
name(index){return index<this.tokens.length?this.tokens[index][0]:'';}
word(index){return this.name(index).toUpperCase();}
slice(from,to){if(to<=from)return'';const last=this.tokens[to-1];return this.text.slice(this.tokens[from].index,last.index+last[0].length);}
end(from,...stops){let depth=0;for(let index=from;index<this.tokens.length;index++){if(depth===0&&stops.includes(this.word(index)))return index;depth+=BRACKETS[this.word(index)]||0;if(depth<0)return index;}
return this.tokens.length;}
parts(from,to){const parts=[];while(from<to){const end=Math.min(this.end(from,','),to);parts.push([from,end]);from=end+1;}
return parts;}}
const wordsOf=text=>new Source(text).tokens.map(([token])=>token);const isText=type=>type==='CHAR';const LEAST=-(2n**63n);const isInteger=text=>/^-?\d{1,19}$/.test(text)&&BigInt(text)>=LEAST&&BigInt(text)<-LEAST;const quoted=text=>"'"+String(text).replaceAll("'","''")+"'";function integerLiteral(cell){const value=BigInt(cell);if(value===LEAST)return'( -9223372036854775807 - 1 )';return value<0n?'( '+value+' )':String(value);}
function literalOf(type,cell){if(isText(type))return quoted(cell);if(type==='INTEGER')return integerLiteral(cell);if(type==='BOOLEAN')return cell?'TRUE':'FALSE';return String(cell);}
function integerCell(text){const bare=text.replace(/[()\s]/g,'');const value=bare==='-9223372036854775807-1'?LEAST:BigInt(bare);return value>=-(2n**53n)&&value<=2n**53n?Number(value):String(value);}
function cellOf(type,literal){const text=literal.trim();if(isText(type))return text.slice(1,-1).replaceAll("''","'");if(type==='INTEGER')return integerCell(text);if(type==='BOOLEAN')return text.toUpperCase()==='TRUE';return text;}
function componentCells(type,cell){const source=new Source(String(cell));if(source.word(1)!=='(')return null;const parts=source.parts(2,source.end(2));if(parts.length!==type.components.length)return null;return parts.map(([from,to],index)=>cellOf(type.components[index].type,source.slice(from,to)));}
function selectorOf(type,cells){const literals=type.components.map((component,index)=>literalOf(component.type,cells[index]));return type.possrep+' ( '+literals.join(', ')+' )';}
const literalAt=(relvar,row,name)=>literalOf(relvar.types.get(name),row[name]);const differsAt=(relvar,one,other,name)=>literalAt(relvar,one,name)!==literalAt(relvar,other,name);const namesOf=relvar=>relvar.attributes.map(attribute=>attribute.name);const keyOf=relvar=>relvar.keys[0]||namesOf(relvar);const keyFirst=relvar=>keyOf(relvar).concat(namesOf(relvar).filter(name=>!keyOf(relvar).includes(name)));const equalAt=(relvar,row,names)=>names.map(name=>name+' = '+literalAt(relvar,row,name)).join(' AND ')||'TRUE';const tupleOf=(relvar,row,names)=>'TUPLE { '+names.map(name=>name+' '+literalAt(relvar,row,name)).join(', ')+' }';const rowText=(relvar,row)=>tupleOf(relvar,row,namesOf(relvar));const relationOf=tuples=>'RELATION { '+tuples.join(', ')+' }';const where=(relvar,condition)=>relvar.name+' WHERE '+condition;const whereEqual=(relvar,row,names)=>where(relvar,equalAt(relvar,row,names));const insertionOf=(relvar,...rows)=>'INSERT '+relvar.name+' '+relationOf(rows.map(row=>rowText(relvar,row)))+';';function insertionOrNext(relvar,row,name,free){const pairs=namesOf(relvar).map(other=>other+' '+(other===name?'MIN ( '+free+', '+name+' )':literalAt(relvar,row,other)));const next='INSERT '+relvar.name+' '+relationOf(['TUPLE { '+pairs.join(', ')+' }'])+';';const isFree='IS_EMPTY ( '+whereEqual(relvar,row,[name])+' )';return'IF '+isFree+' THEN '+insertionOf(relvar,row)+' ELSE '+next+' END IF;';}
function insertionUnless(relvar,row,earlier){const isAbsent='IS_EMPTY ( '+whereEqual(relvar,earlier,keyFirst(relvar))+' )';return'IF '+isAbsent+' THEN '+insertionOf(relvar,row)+' END IF;';}
function onlyIfSeen(relvar,seen,statement){const isThere='NOT IS_EMPTY ( '+whereEqual(relvar,seen,keyFirst(relvar))+' )';return'IF '+isThere+' THEN '+statement+' END IF;';}
function updateOf(relvar,seen,row){const names=namesOf(relvar).filter(name=>differsAt(relvar,seen,row,name));if(!names.length)return null;const assignments=names.map(name=>name+' := '+literalAt(relvar,row,name)).join(', ');return'UPDATE '+whereEqual(relvar,seen,keyOf(relvar))+' ( '+assignments+' );';}
const deletionOf=(relvar,seen)=>'DELETE '+whereEqual(relvar,seen,keyOf(relvar))+';';function readPair(relvar,source,[from,to],sign){const name=source.name(from);if(source.word(from+1)!==sign)throw new Error('no pair');return[name,cellOf(relvar.types.get(name),source.slice(from+2,to))];}
function readTuple(relvar,source,from,to){return Object.fromEntries(source.parts(from+2,to-1).map(([first,end])=>{const name=source.name(first);return[name,cellOf(relvar.types.get(name),source.slice(first+1,end))];}));}
function readConditions(relvar,source,from,to){const pairs=[];while(from<to){const end=Math.min(source.end(from,'AND',';'),to);pairs.push(readPair(relvar,source,[from,end],'='));from=end+1;}
return Object.fromEntries(pairs);}
function readInsertion(relvar,source,index){if(source.word(index)!=='RELATION'||source.word(index+2)!=='TUPLE')return null;const parts=source.parts(index+2,source.end(index+2));return{does:'add',relvar,rows:parts.map(([from,to])=>readTuple(relvar,source,from,to))};}
function readUpdate(relvar,source,index){const end=source.end(index,';');let open=index,depth=0;for(let at=index;at<end;at++){if(depth===0&&source.word(at)==='(')open=at;depth+=BRACKETS[source.word(at)]||0;}
const key=readConditions(relvar,source,index+1,open);const pairs=source.parts(open+1,source.end(open+1)).map(part=>readPair(relvar,source,part,':='));return{does:'change',relvar,key,values:Object.fromEntries(pairs)};}
function readDeletion(relvar,source,index){return{does:'remove',relvar,key:readConditions(relvar,source,index+1,source.end(index,';'))};}
function readStatement(relvars,text){const readers=new Map([['INSERT',readInsertion],['UPDATE',readUpdate],['DELETE',readDeletion]]);try{const source=new Source(text);const begin=source.word(0)==='IF'?source.end(1,'THEN')+1:0;return readers.get(source.word(begin))(relvars.get(source.name(begin+1)),source,begin+2);}catch{return null;}}
function readChange(relvar,text){const source=new Source(text),at=source.end(1,'+',';')+1;if(source.name(0)!==relvar.name||source.word(at)!=='TUPLE')return null;return readTuple(relvar,source,at,source.end(at+2)+1);}
const siteOf=stamp=>Number(stamp.split('.')[1]);const clockOf=stamp=>Number(stamp.split('.')[0]);const stampBefore=stamp=>clockOf(stamp)+'.'+(siteOf(stamp)-1);const isEarlier=(one,other)=>clockOf(one)-clockOf(other)||siteOf(one)-siteOf(other);

const byId=id=>document.getElementById(id);const[main,panel,nav]=['main','panel','nav'].map(byId);const focused=()=>document.activeElement;const json=value=>JSON.stringify(value);const HIDDEN=/[\u0000-\u0008\u000b-\u001f\u007f-\u009f\u00ad\u200b\u2028-\u202e\u2060-\u206f\ufeff]/g;function visible(text){return String(text).replace(HIDDEN,sign=>'[U+'+sign.codePointAt(0).toString(16).toUpperCase().padStart(4,'0')+']');}
const cut=(text,most)=>text.length>most?text.slice(0,most)+'…':text;function setProperty(node,name,value){if(name.startsWith('on'))node.addEventListener(name.slice(2),value);else if(name==='class')node.className=value;else if(name in node&&!name.includes('-'))node[name]=name==='title'?visible(value):value;else node.setAttribute(name,value===true?'':visible(value));}
function draw(node,...children){const there=children.flat(Infinity).filter(child=>child!==null&&child!==undefined&&child!==false);node.replaceChildren(...there.map(child=>child instanceof Node?child:visible(child)));}
function el(tag,properties,...children){const node=document.createElement(tag);for(const[name,value]of Object.entries(properties||{})){if(value!==null&&value!==undefined&&value!==false)setProperty(node,name,value);}
draw(node,children);return node;}
const div=(kind,...children)=>el('div',{class:kind},...children);const span=(kind,...children)=>el('span',{class:kind},...children);const para=(kind,...children)=>el('p',{class:kind},...children);const pre=(kind,...children)=>el('pre',{class:kind},...children);const button=(words,act,kind,more)=>el('button',{type:'button',class:kind,onclick:act,...more},words);const link=(path,words,kind)=>el('a',{class:kind||'button',href:'#/'+path},words);const bar=(...children)=>div('bar',...children);const note=(kind,...children)=>div('note '+kind,...children);const gap=()=>span('grow');const details=(words,...children)=>el('details',{},el('summary',{},words),...children);const sign=(mark,words,kind)=>el('span',{class:kind,title:words,role:'img','aria-label':'('+words+')'},mark);const tableOf=(head,body)=>div('wide',el('table',{},el('thead',{},el('tr',{},head)),body));const selectOf=(label,options)=>el('select',{'aria-label':label},options.map(([value,words])=>el('option',{value},words)));function searchBox(label,value,search){const box=el('input',{type:'search',class:'grow',placeholder:'Search','aria-label':label,value});let timer=0;box.oninput=()=>{clearTimeout(timer);timer=setTimeout(()=>search(box.value.trim()),80);};return box;}
function put(node,text){const words=visible(text);if(node.textContent!==words)node.textContent=words;}
const hasFocus=node=>node.contains(focused());const number=value=>Number(value).toLocaleString('en');const counted=(count,one,many)=>number(count)+' '+(Number(count)===1?one:many);function duration(seconds){if(seconds<5400)return Math.round(seconds/60)+' min';return seconds<172800?Math.round(seconds/3600)+' h':Math.round(seconds/86400)+' days';}
const ago=seconds=>seconds<60?'just now':duration(seconds)+' ago';const dateInWords=time=>new Date(time).toLocaleString([],{dateStyle:'short',timeStyle:'short'});const timeOfDay=time=>new Date(time).toLocaleTimeString([],{hour:'2-digit',minute:'2-digit'});const pause=milliseconds=>new Promise(done=>setTimeout(done,milliseconds));function kept(name,otherwise){try{return JSON.parse(sessionStorage.getItem(name))??otherwise;}catch{return otherwise;}}
function keep(name,value){try{sessionStorage.setItem(name,json(value));}catch{}}
let toastTimer=0;function toast(words){put(byId('toast'),words);clearTimeout(toastTimer);toastTimer=setTimeout(()=>put(byId('toast'),''),6000);}
const toastFault=fault=>toast(fault.message);

const EVERY=3000;const state={site:null,received:0,schema:null,vector:'',attention:[],awaySince:0,fault:'',why:'',view:null,form:null,author:kept('author',null),client:{name:null,rights:'all'},isUploading:false,};let mine=kept('stamps',[]);let outbox=kept('outbox',[]);function keepEntries(){mine=mine.slice(-200);keep('stamps',mine);keep('outbox',outbox);}
function takeToken(){if(location.hash.length<2||location.hash.startsWith('#/'))return;sessionStorage.setItem('token',location.hash.slice(1));history.replaceState(null,'',location.pathname+'#/');}
class Away extends Error{}
function noAnswer(){throw new Away('The server does not answer.');}
function request(path,body,tag){const headers={Authorization:'Bearer '+(sessionStorage.getItem('token')||'')};if(body)headers['Content-Type']='application/json';if(tag)headers['If-None-Match']=tag;const signal=AbortSignal.timeout(30000),method=body?'POST':'GET';return fetch(path,{method,headers,body:body&&json(body),cache:'no-store',signal}).catch(noAnswer);}
async function answerOf(reply){const answer=await reply.json().catch(noAnswer);if(reply.ok)return answer;if(reply.status===403)isClientKnown=false;if(reply.status===401)throw new Error('Open this page by its whole address, with all that follows #.');if([502,503,504].includes(reply.status))throw new Away(answer.fault);throw Object.assign(new Error(answer.fault),{status:reply.status});}
const call=async(path,body)=>answerOf(await request(path,body));const log=async filter=>(await call('/api/log?'+new URLSearchParams(filter))).log;const refusedEntries=async()=>(await call('/api/refused')).refused;const query=(text,members)=>call('/api/query',{text,...members});const valueOf=async text=>(await query(text)).value;const rowOf=(heading,cells)=>Object.fromEntries(heading.map((attribute,index)=>[attribute.name,cells[index]]));async function rowsOf(text,members){const{total=0,heading=[],rows=[]}=await query(text,members);return{total:Number(total),rows:rows.map(cells=>rowOf(heading,cells))};}
async function firstWhere(relvar,row,names){return(await rowsOf(whereEqual(relvar,row,names),{count:1})).rows[0]||null;}
function newKey(){const bytes=crypto.getRandomValues(new Uint8Array(16));return Array.from(bytes,byte=>byte.toString(16).padStart(2,'0')).join('');}
const LONGEST=8169;const bytesOf=text=>new TextEncoder().encode(text).length;async function issue(text){const entry={key:newKey(),text,author:authorName()};outbox.push(entry);keepEntries();return send(entry);}
const tryOut=text=>call('/api/try',{text}).catch(fault=>{if(fault instanceof Away)return{};if(fault.status!==422)throw fault;return{refused:fault.message};});function takeFromOutbox(entry){outbox=outbox.filter(other=>other.key!==entry.key);keepEntries();}
async function send(entry){let answer;try{answer=await call('/api/statement',{text:entry.text,key:entry.key});}catch(fault){return noteFault(entry,fault);}
return noteAnswer(entry,answer);}
function noteFault(entry,fault){const isAway=fault instanceof Away;if(!isAway&&!entry.waits){takeFromOutbox(entry);throw fault;}
entry.waits=isAway;entry.failure=isAway?'':fault.message;keepEntries();paintState();return{waits:isAway,why:fault.message,refused:entry.failure};}
function noteAnswer(entry,answer){mine.push(answer.stamp);takeFromOutbox(entry);poll();if(answer.warning)toast(answer.warning);return{changed:[],...answer};}
async function sendAgain(){for(const entry of outbox.filter(waiting=>waiting.waits)){const answer=await send(entry);if(answer.waits)return;const{stamp,refused,breaks}=answer;if(stamp&&refused)outbox.push({...entry,waits:false,failure:reasonInWords(refused,breaks),breaks});keepEntries();toast('An entry that waited '+(refused?'was refused: see “Needs a look”.':'is saved now.'));}}
let isPolling=false,pollAgain=false,lastPoll=0,siteTag=null,schemaText='',isClientKnown=false;async function poll(){pollAgain=isPolling;if(isPolling)return;isPolling=true;try{await refresh();state.fault='';}catch(fault){failRefresh(fault);}
isPolling=false;paintState();if(pollAgain)poll();}
function failRefresh(fault){siteTag=null;isClientKnown=false;state.vector='';if(!(fault instanceof Away))state.fault=fault.message;else if(!state.awaySince)state.awaySince=Date.now();if(!state.schema)draw(main,note('warn',fault.message));}
async function changedSite(){const reply=await request('/api/site',null,siteTag);if(reply.status===304)return null;const site=await answerOf(reply);siteTag=reply.headers.get('ETag');return site;}
async function readClient(){const reply=await request('/api/client'),was=state.client;state.client=reply.status===404?{name:null,rights:'all'}:await answerOf(reply);isClientKnown=true;if(!isSame(was,state.client))show();}
async function refresh(){if(!isClientKnown)await readClient();const site=await changedSite();state.awaySince=0;lastPoll=Date.now();if(outbox.some(entry=>entry.waits))await sendAgain();if(site)await takeSite(site);if(state.view&&state.view.tick)state.view.tick();}
async function takeSite(site){state.site=site;state.received=Date.now();state.why=site.open&&!site.lacking?'':await whyClosed();if(state.isUploading)return;const vector=json(site.vector);if(vector!==state.vector)return readLists(vector);if(await readMarks())await showChanges();}
async function readMarks(){const was=state.attention;state.attention=(await call('/api/attention')).attention;return!isSame(was,state.attention);}
async function whyClosed(){const reply=await request('/api/health');return(await reply.json()).fault||'';}
async function readLists(vector){schemaText=schemaText||json(await call('/api/schema'));const[{relvars}]=await Promise.all([call('/api/relvars?counts'),readMarks()]);const counts=relvars.map(relvar=>[relvar.name,relvar.tuples]);keep('shown',{schema:schemaText,counts,site:state.site,client:state.client});takeSchema(schemaText,counts);state.vector=vector;await showChanges();}
let schemaShown='';function takeSchema(text,counts){if(text!==schemaShown)state.schema=makeSchema(JSON.parse(text));schemaShown=text;for(const[name,count]of counts)if(state.schema.relvars.has(name))relvarNamed(name).count=count;}
async function showChanges(){paintNav();if(state.view&&state.view.refresh)await state.view.refresh();if(state.form)await state.form.refresh();}
const ownNumber=()=>Number(state.site.vector[state.site.site]||0);const isSame=(one,other)=>json(one)===json(other);const troubles=()=>[...outbox.filter(entry=>entry.failure).map(entry=>({...entry,stamp:entry.key,reason:entry.failure})),...state.attention];async function settle(stamp){takeFromOutbox({key:stamp});const others=state.attention.filter(entry=>entry.stamp!==stamp);if(others.length<state.attention.length)await call('/api/acknowledge',{stamp});state.attention=others;paintState();paintNav();if(currentPath()==='look')show();}
const elapsed=()=>(Date.now()-state.received)/1000;const secondsSince=meeting=>meeting.seconds+elapsed();const metSites=()=>state.site.peers.filter(peer=>peer.met!==null);const lastMet=()=>Math.min(Infinity,...metSites().map(peer=>peer.met))+elapsed();const sentNumber=()=>Math.max(0,...state.site.peers.map(peer=>Number(peer.vector[state.site.site]||0)));const unsent=()=>ownNumber()-sentNumber();const LONG=600;function linkWords(){if(state.awaySince)return['bad','No answer since '+timeOfDay(state.awaySince)];if(state.fault)return['bad',state.fault];if(!state.site)return['','…'];if(!state.site.open||state.site.lacking)return['bad','Nothing can be saved now'];const met=lastMet(),waiting=unsent();const here=waiting?' · '+counted(waiting,'entry is','entries are')+' here only':'';const rest=waiting?here:' · all sent';if(met===Infinity)return[state.site.peers.length?'warn':'','No other site was met yet'+rest];if(met>LONG)return['warn','Alone for '+duration(met)+rest];return[metSites().some(peer=>peer.failed)?'warn':'','Met '+ago(met)+rest];}
const KEEPER=' Tell the one who looks after the server.';function laterWords(){const count=outbox.filter(entry=>entry.waits).length;const waiting=count?' '+counted(count,'entry waits','entries wait')+'.':'';return' You can go on: what you enter is kept in this tab, and is sent later.'+waiting;}
function clashes(alarms){return[...new Set(alarms.map(alarm=>alarm.site))].map(site=>{const addresses=alarms.filter(alarm=>alarm.site===site).map(alarm=>alarm.address);const words='Two programs have written as site '+site+', or its file is damaged. Entries of site '+site
+' are not exchanged with '+listed(addresses)+' any more.'+KEEPER;return{kind:'bad',words,site};});}
function fullness({held,limit}){if(!limit||held<limit*0.9)return[];if(held>=limit)return[{kind:'bad',words:'This site is full: nothing more can be entered.'+KEEPER}];const words='This site is nearly full: '+number(held)+' of '+number(limit)+' entries are used.'+KEEPER;return[{kind:'warn',words}];}
function closure(site){if(site.open&&!site.lacking)return[];const words=site.open?'This site lacks entries that it made before. It must meet another one before it saves any.'
:'This site cannot write to its disk.'+KEEPER;const reason=state.why?' (The server says: '+state.why+')':'';return[{kind:'bad',words:words+laterWords()+reason}];}
function solitude(site){const met=lastMet();if(met<LONG||met===Infinity)return[];const words='Alone for '+duration(met)+': other sites do not see what is entered here, nor this site theirs.';return[{kind:'warn',words}];}
function notices(){const site=state.site,all=mayWrite()?[]:[{kind:'',words:'You may look, not write.'}];if(state.awaySince){const words='The server has not answered since '+timeOfDay(state.awaySince)+'.';all.push({kind:'bad',words:words+laterWords()});}
if(!site)return all;all.push(...clashes(site.alarms),...closure(site),...fullness(site),...solitude(site));if(site.meetings.some(meeting=>meeting.words.includes('WARNING')&&secondsSince(meeting)<LONG)){all.push({kind:'warn',words:'A meeting with another site gave a warning: see “Other sites”.'});}
return all;}
async function reportClash(site){await call('/api/alarms/acknowledge',{site}).catch(toastFault);poll();}
let noticesText='';function paintNotices(){const all=notices(),text=json(all);if(text===noticesText)return;noticesText=text;draw(byId('notices'),all.map(({kind,words,site})=>note(kind,words,site&&mayWrite()?[' ',button('It is reported',()=>reportClash(site))]:'')));}
function paintState(){const[kind,words]=linkWords(),count=state.schema?troubles().length:0;const line=byId('state');if(line.className!==kind)line.className=kind;put(line,words);if(state.site){put(byId('name'),'Site '+state.site.site);put(document.querySelector('title'),'Site '+state.site.site);}
const alarm=byId('alarm');if(alarm.hidden!==!count)alarm.hidden=!count;put(alarm,count+(count===1?' needs a look':' need a look'));put(byId('who'),authorName()||'Your name');paintNotices();}
const mayWrite=()=>state.client.rights!=='read';const authorName=()=>state.client.name||state.author;const needName=async()=>{if(authorName()===null)await askName();};const signed=text=>(state.author&&!state.client.name?'/* '+state.author+' */ ':'')+text;const cleanName=text=>text.replace(HIDDEN,' ').replace(/\*\/|\/\*/g,' ').trim().slice(0,40);function takeName(box){if(box.returnValue==='ok')state.author=cleanName(byId('nameinput').value);if(box.returnValue==='no')state.author='';box.returnValue='';if(state.author!==null)keep('author',state.author);paintState();}
function askName(){if(state.client.name)return toast('This name is that of your token.');const box=byId('ask');byId('nameinput').value=state.author||'';box.showModal();byId('nameinput').focus();return new Promise(done=>{box.onclose=()=>{takeName(box);done();};});}

const labels=new Map();const relvarNamed=name=>state.schema.relvars.get(name);function plain(name){if(labels.has(name))return labels.get(name);const words=name.replaceAll('_',' ').replaceAll('#',' no.').trim();const rest=words===words.toUpperCase()?words.slice(1).toLowerCase():words.slice(1);return words.charAt(0).toUpperCase()+rest;}
function inSentence(name){const words=plain(name);return/^.[A-Z]/.test(words)?words:words.charAt(0).toLowerCase()+words.slice(1);}
function listed(words,last){return words.length<2?words.join():words.slice(0,-1).join(', ')+' '+(last||'and')+' '+words.at(-1);}
function makeRelvar(told){const types=new Map(told.heading.map(attribute=>[attribute.name,attribute.type]));const sent=[...types.keys()],order=told.order.every(name=>types.has(name))?told.order:sent;const attributes=order.map(name=>({name,type:types.get(name)}));const isBase=told.kind==='base';return{name:told.name,isBase,attributes,types,sent,keys:told.keys,text:told.text||'',references:[],count:null,like:null};}
function orderLike(relvar,bases){const used=new Set(wordsOf(relvar.text)),like=bases.find(({name})=>used.has(name));if(!like)return;const names=namesOf(like);const rank=({name})=>names.includes(name)?names.indexOf(name):names.length;relvar.attributes.sort((one,other)=>rank(one)-rank(other));relvar.like=like.name;}
function addReference(relvars,constraint){const{reference}=constraint;if(!reference||!reference.attributes.length)return void(constraint.reference=null);reference.names=reference.attributes;relvars.get(reference.from).references.push(reference);}
function addFree(relvars,relvar){const found=/^\(\s*([\w#]+)\s+NOT\s+MATCHING\s+([\w#]+)\s*\)$/i.exec(relvar.text);if(!found||!relvars.has(found[2]))return;for(const reference of relvars.get(found[2]).references){if(reference.to===found[1])reference.free=relvar.name;}}
function makeSchema(told){labels.clear();for(const[name,words]of Object.entries(told.labels))labels.set(name,visible(cut(words,60)));const types=new Map(told.types.map(type=>[type.name,type]));const relvars=new Map(told.relvars.map(relvar=>[relvar.name,makeRelvar(relvar)]));const all=[...relvars.values()],bases=all.filter(relvar=>relvar.isBase);const virtual=all.filter(relvar=>!relvar.isBase);for(const relvar of virtual)orderLike(relvar,bases);for(const constraint of told.constraints)addReference(relvars,constraint);for(const relvar of virtual)addFree(relvars,relvar);return{types,relvars,bases,virtual,constraints:told.constraints};}
const typeNamed=type=>state.schema.types.get(type);const isPlain=type=>isText(type)||type==='INTEGER'||type==='BOOLEAN';function isNumber(type){const defined=typeNamed(type);return type==='INTEGER'||Boolean(defined&&defined.components.length===1
&&defined.components[0].type==='INTEGER');}
function nestedInWords(text){const source=new Source(text),isBare=source.word(0)==='TUPLE'||source.word(2)==='TUPLE';const tokens=wordsOf(text).slice(isBare?0:source.end(2)+1);const words=tokens.filter(token=>!/^(TUPLE|RELATION|[{}])$/i.test(token)).map(token=>token.startsWith("'")?cellOf('CHAR',token):/^[a-z]/i.test(token)?inSentence(token):token);return words.join(' ').replaceAll(' ,',',')||'none';}
function definedInWords(type,cell){const cells=componentCells(type,cell);if(!cells)return String(cell);const words=cells.map((part,index)=>inWords(type.components[index].type,part));return words.length===1?words[0]+' '+inSentence(type.components[0].name):words.join(' / ');}
function inWords(type,cell){if(type==='BOOLEAN')return cell?'yes':'no';if(isPlain(type))return String(cell);const defined=typeNamed(type);return defined?definedInWords(defined,cell):nestedInWords(String(cell));}
const valueInWords=(relvar,row,name)=>inWords(relvar.types.get(name),row[name]);const pairsInWords=(relvar,row,names)=>listed(names.map(name=>inSentence(name)+' '+valueInWords(relvar,row,name)));const rowInWords=(relvar,row,names)=>names.filter(name=>name in row).map(name=>valueInWords(relvar,row,name)).join(', ');function othersInWords(relvar,row,name){const others=relvar.attributes.filter(attribute=>attribute.name!==name).slice(0,3);return others.map(({name:other,type})=>(isText(type)?'':inSentence(other)+' ')+inWords(type,row[other])).join(', ');}
const COMPARISONS={'>':'more than','>=':'at least','<':'less than','<=':'at most','<>':'not','=':'exactly'};function comparisonInWords(type,text){const found=/^([\w#]+)\s*(<=|>=|<>|<|>|=)\s*([\w#-]+)$/.exec(text.trim());if(!found)return null;const name=type.components.length>1?inSentence(found[1])+' ':'';return name+COMPARISONS[found[2]]+' '+(/^[A-Za-z]/.test(found[3])?inSentence(found[3]):found[3]);}
function ruleInWords(type){if(!type||!type.constraint)return'';const words=type.constraint.split(/\s+AND\s+/i).map(text=>comparisonInWords(type,text));return words.every(Boolean)?listed(words):type.constraint;}
const constraintNamed=name=>state.schema.constraints.find(constraint=>constraint.name===name);const existsInWords=(relvar,row,names)=>'There is already an entry in “'+plain(relvar.name)+'”'
+(names.length?' with '+pairsInWords(relvar,row,names):'')+'.';const missesInWords=(reference,relvar,row)=>'There is no entry in “'+plain(reference.to)+'” with '+pairsInWords(relvar,row,reference.names)+'.';const ruleNotAllowed=constraint=>'The rule “'+plain(constraint.name)+'” does not allow this.';function brokenKeyInWords(name){const relvar=relvarNamed(name);const keys=relvar?relvar.keys.map(key=>listed(key.map(inSentence))):[];return'There is already an entry in “'+plain(name)+'” with the same '+(listed(keys,'or')||'values')+'.';}
function brokenConstraintInWords(name){const constraint=constraintNamed(name);if(!constraint||!constraint.reference)return ruleNotAllowed({name});const{from,to,names}=constraint.reference;return'Each entry in “'+plain(from)+'” needs one in “'+plain(to)+'” with the same '
+listed(names.map(inSentence))+'.';}
const RAISED={selector:'A value is outside what is allowed for it.',empty:'Nothing is free any more.',overflow:'A number is too large.'};function reasonInWords(reason,breaks){if(breaks)return(isKey(breaks)?brokenKeyInWords:brokenConstraintInWords)(breaks.name);const raised=/^raised (\w+)/.exec(reason);return raised&&RAISED[raised[1]]||reason;}
const isKey=breaks=>Boolean(breaks)&&breaks.kind==='key';

const PAGE=50;const SMALL=3000;const SIGNS=new Map([['is','='],['not','<>'],['least','>='],['most','<=']]);const SIGN_WORDS={is:'is',not:'is not',least:'at least',most:'at most'};const ORDERED=20000;const isSmall=relvar=>Number(relvar.count)<=SMALL;const firstOrder=relvar=>relvar.count>ORDERED?'':keyOf(relvar)[0]||namesOf(relvar)[0];function filterColumns(relvar){return relvar.attributes.flatMap(({name,type})=>{if(isPlain(type))return[{id:name,words:plain(name),type,term:name}];const defined=typeNamed(type);return defined?defined.components.filter(component=>isPlain(component.type)).map(component=>({id:name+'.'+component.name,words:plain(name)+' ('+inSentence(component.name)+')',type:component.type,term:'THE_'+component.name+' ( '+name+' )'})):[];});}
function fitsColumn({type},sign,value){if(type==='INTEGER')return isInteger(value);return type!=='BOOLEAN'||/^(yes|no)$/.test(value)&&/^(is|not)$/.test(sign);}
const filterCell=(column,value)=>column.type==='BOOLEAN'?value==='yes':value;const conditionOf=({column,sign,value})=>column.term+' '+SIGNS.get(sign)+' '+literalOf(column.type,filterCell(column,value));function readFilter(columns,text){const found=/^([\w#.]+):(\w+):([^]*)$/.exec(text);const column=found&&columns.find(other=>other.id===found[1]);if(!column||!SIGNS.has(found[2])||!fitsColumn(column,found[2],found[3]))return null;return{column,sign:found[2],value:found[3],text};}
const filterWords=({column,sign,value})=>column.words+' '+SIGN_WORDS[sign]+' '+value;const collator=new Intl.Collator(undefined,{numeric:true,sensitivity:'base'});const compareIntegers=(one,other)=>Number(BigInt(one)>BigInt(other))-Number(BigInt(one)<BigInt(other));function compareCells(type,one,other){if(type==='INTEGER')return compareIntegers(one,other);const defined=typeNamed(type);if(!defined)return isText(type)?collator.compare(one,other):Number(one>other)-Number(one<other);const[ours,theirs]=[componentCells(defined,one)||[],componentCells(defined,other)||[]];return ours.reduce((so,cell,index)=>so||compareCells(defined.components[index].type,cell,theirs[index]),0);}
function route(path,params){const search=String(params||'');return'#/'+path+(search?'?'+search:'');}
function go(path,params,replaces){if(!replaces)location.hash=route(path,params);else{history.replaceState(null,'',route(path,params));show();}}
const listPath=name=>'list/'+encodeURIComponent(name);const linkTo=(name,filters)=>route(listPath(name),new URLSearchParams(filters.map(filter=>['f',filter])));class Grid{constructor(relvar,params){this.relvar=relvar;this.params=params;this.columns=filterColumns(relvar);this.filters=params.getAll('f').map(text=>readFilter(this.columns,text)).filter(Boolean);this.search=params.get('q')||'';this.order=relvar.types.has(params.get('s'))?params.get('s'):firstOrder(relvar);this.isDown=params.get('d')==='1';this.page=Math.max(0,Number(params.get('p'))||0);this.at=params.get('at')||'';this.shown=null;this.rowsShown=[];this.view={path:'list/'+relvar.name,refresh:()=>this.fill(),paintOpen:()=>this.paintOpen()};}
route(changes){const params=new URLSearchParams(this.params);for(const[name,values]of Object.entries({p:'',...changes})){params.delete(name);for(const value of[values].flat())if(value!=='')params.append(name,value);}
return route(listPath(this.relvar.name),this.params=params);}
set(changes){location.hash=this.route(changes);}
find(text){this.search=text;this.page=0;this.shown=null;history.replaceState(null,'',this.route({q:text}));this.fill().catch(fault=>put(this.status,fault.message));}
goToPage(page){this.set({p:page||''});}
queryText(){const conditions=this.filters.map(conditionOf).join(' AND ');return conditions?where(this.relvar,conditions):this.relvar.name;}
moment(){return this.at?{at:this.at}:{};}
async all(){if(!this.cache||this.cacheVector!==state.vector){const vector=state.vector;this.cache=(await rowsOf(this.queryText(),this.moment())).rows;this.cacheVector=vector;}
return this.cache;}
isFound(row){const searched=this.search.toLowerCase();return namesOf(this.relvar).some(name=>valueInWords(this.relvar,row,name).toLowerCase().includes(searched));}
async rows(first,count){if(isSmall(this.relvar)){const type=this.relvar.types.get(this.order),way=this.isDown?-1:1;const found=(await this.all()).filter(row=>this.isFound(row));found.sort((one,other)=>way*compareCells(type,one[this.order],other[this.order]));return{total:found.length,rows:found.slice(first,first+count)};}
const order=this.order?{order:[[this.order,this.isDown?'down':'up']]}:{};const contains=this.search?{contains:this.search}:{};return rowsOf(this.queryText(),{...this.moment(),...contains,...order,first,count});}
show(){const{relvar}=this;this.canAdd=relvar.isBase&&!this.at&&mayWrite();this.status=el('span',{class:'quiet',role:'status'});this.empty=el('div',{class:'empty',hidden:true});this.body=el('tbody',{onclick:event=>this.openAt(event),onkeydown:event=>this.moveFrom(event)});this.box=el('div',{class:'wide grid cards',tabindex:'-1'},el('table',{},this.head(),this.body));this.filterBar=this.makeFilterBar();this.paper=para('paper');draw(main,this.titleBar(),this.pastNote(),this.toolBar(),this.filterBar,this.chips(),this.paper,this.box,this.empty,this.pageBar(),this.actBar());state.view=this.view;this.box.classList.add('busy');return this.fill().catch(fault=>put(this.status,fault.message)).finally(()=>this.box.classList.remove('busy'));}
titleBar(){return div('bar head',el('h2',{},plain(this.relvar.name)),this.relvar.isBase?null:span('tag','follows from other lists'),gap(),this.canAdd?button('+ Add',()=>this.add(),'main',{id:'add',title:'Add (N)'}):null);}
add(){openForm(this.relvar,null);}
pastWords(){const time=this.params.get('t');return'As it was '+(time?'on '+dateInWords(time)+', ':'')+'just after '+this.at;}
pastNote(){if(!this.at)return'';return note('warn',this.pastWords()+', by what is known today. Nothing can be changed here. ',button('Back to now',()=>this.set({at:'',t:''}),'plain'));}
toolBar(){return bar(this.searchBox(),button('Filter',()=>this.toggleFilters(),'',{'aria-controls':'filters'}),this.orderChoice());}
searchBox(){const box=searchBox('Search in '+plain(this.relvar.name),this.search,text=>this.find(text));box.id='search';if(!isSmall(this.relvar))box.placeholder='Search in texts';box.onkeydown=event=>{if(event.key!=='ArrowDown'||!this.body.rows.length)return;event.preventDefault();this.body.querySelector('button').focus();};return box;}
orderChoice(){const box=selectOf('In the order of',this.relvar.attributes.flatMap(({name})=>[[name+' ','↑ '+plain(name)],[name+' 1','↓ '+plain(name)]]));box.value=this.order+(this.isDown?' 1':' ');box.className='onphone';box.onchange=()=>{const[s,d]=box.value.split(' ');this.set({s,d});};return box;}
actBar(){const{name,isBase}=this.relvar,path=encodeURIComponent(name);return bar(button('Print',()=>this.print()),button('Download CSV',()=>this.download()),isBase&&mayWrite()?link('upload/'+path,'Upload CSV'):'',link('past/'+path,'As it was'));}
toggleFilters(){this.filterBar.hidden=!this.filterBar.hidden;if(!this.filterBar.hidden)this.filterBar.querySelector('select').focus();}
makeFilterBar(){const columns=selectOf('Column',this.columns.map(({id,words})=>[id,words]));const signs=selectOf('Comparison',Object.entries(SIGN_WORDS)),value=el('input',{'aria-label':'Value'});const add=()=>{const text=columns.value+':'+signs.value+':'+value.value.trim();if(readFilter(this.columns,text))return this.set({f:[...this.params.getAll('f'),text]});value.setAttribute('aria-invalid','true');value.focus();};value.onkeydown=event=>{if(event.key==='Enter')add();};return el('div',{class:'bar',hidden:true,id:'filters'},columns,signs,value,button('Apply the filter',add,'main'));}
chips(){const remove=filter=>this.set({f:this.params.getAll('f').filter(text=>text!==filter.text)});return el('div',{class:'bar',hidden:!this.filters.length},this.filters.map(filter=>span('chip',filterWords(filter),button('✕',()=>remove(filter),'',{'aria-label':'Remove this filter'}))));}
paperWords(){const parts=[plain(this.relvar.name),'site '+state.site.site,'printed '+new Date().toLocaleString()];if(this.search)parts.push('search '+this.search);if(this.at)parts.push(this.pastWords());return parts.concat(this.filters.map(filterWords)).join(' · ');}
pageBar(){this.back=button('‹ Back',()=>this.goToPage(this.page-1),'',{id:'back',disabled:true});this.next=button('Next ›',()=>this.goToPage(this.page+1),'',{id:'next',disabled:true});return bar(this.status,gap(),this.back,this.next);}
head(){return el('thead',{},el('tr',{},this.relvar.attributes.map(({name,type},index)=>{const isOrder=this.order===name,way=this.isDown?'descending':'ascending';const words=plain(name)+(isOrder?this.isDown?' ▼':' ▲':'');const choose=()=>this.set({s:name,d:isOrder&&!this.isDown?'1':''});return el('th',{scope:'col',class:index&&isNumber(type)?'n':'','aria-sort':isOrder?way:'none'},button(words,choose,'',{title:'In the order of '+plain(name)}));})));}
cell(row,{name,type},index){const words=cut(inWords(type,row[name]),200);const shown=index?el('span',{class:'value',dir:isText(type)?'auto':null},words)
:el('button',{class:'open',type:'button'},words||'(empty)');return el('td',{class:index&&isNumber(type)?'n':'','data-label':plain(name)},shown);}
idOf(row){return json(keyOf(this.relvar).map(name=>row[name]));}
line(row){const cells=this.relvar.attributes.map((attribute,index)=>this.cell(row,attribute,index));return el('tr',{'data-id':this.idOf(row)},cells);}
async fill(){this.isStale=this.isFilling;if(this.isFilling)return;this.isFilling=true;const found=await this.rows(this.page*PAGE,PAGE).catch(fault=>({fault}));this.isFilling=false;if(this.isStale)return this.fill();if(found.fault)throw found.fault;return state.view===this.view&&this.paint(found);}
paint({total,rows}){const text=json([total,rows]);put(this.paper,this.paperWords());if(text===this.shown)return;const old=new Map(this.rowsShown.map((row,index)=>[json(row),this.body.rows[index]]));const id=hasFocus(this.body)?focused().closest('tr').dataset.id:null;const lines=rows.map(row=>old.get(json(row))||this.line(row));if(this.shown!==null)for(const line of lines)line.classList.toggle('fresh',!this.body.contains(line));draw(this.body,lines);this.shown=text;this.rowsShown=rows;if(id!==null)this.focusOn(id);this.paintPages(total);this.paintOpen();}
focusOn(id){const line=[...this.body.rows].find(other=>other.dataset.id===id)||this.body.rows[0];if(line)line.querySelector('button').focus({preventScroll:true});}
paintPages(total){const first=this.page*PAGE;const range=number(first+1)+'–'+number(first+this.rowsShown.length)+' of '+number(total);put(this.status,total>PAGE?range:total?counted(total,'entry','entries'):'');this.back.hidden=this.next.hidden=total<=PAGE;this.back.disabled=this.page===0;this.next.disabled=first+this.rowsShown.length>=total;this.empty.hidden=total>0;this.box.hidden=total===0;if(!total)draw(this.empty,this.emptyWords());}
emptyWords(){if(this.search||this.filters.length){return[para('','Nothing fits.'),button('Show all',()=>this.set({q:'',f:[]}))];}
return[para('','Nothing is here yet.'),this.canAdd?button('+ Add the first',()=>this.add(),'main'):''];}
paintOpen(){for(const line of this.body.rows){line.classList.toggle('on',Boolean(state.form&&state.form.id===this.relvar.name+line.dataset.id));}}
openAt(event){const line=event.target.closest('tr');if(!line||getSelection().toString())return;openForm(this.relvar,this.rowsShown.find(row=>this.idOf(row)===line.dataset.id),{at:this.at});}
moveFrom(event){const line=event.target.closest('tr');const above=line.previousElementSibling||byId('search');const to={ArrowDown:line.nextElementSibling,ArrowUp:above}[event.key];if(!to)return;event.preventDefault();(to.querySelector('button')||to).focus();}
async print(){const most=2000,{total,rows}=await this.rows(0,most),was=[...this.body.childNodes];const words=this.paperWords();const part=total>rows.length?' · the first '+number(rows.length)+' of '+number(total):'';put(this.paper,words+part);draw(this.body,rows.map(row=>this.line(row)));print();draw(this.body,was);put(this.paper,words);}
async download(){const names=namesOf(this.relvar),lines=[names.join(',')];try{for(let first=0,total=1;first<total;first+=5000){const part=await this.rows(first,5000);total=part.total;lines.push(...part.rows.map(row=>names.map(name=>csvCell(row[name])).join(',')));}}catch(fault){return toast(fault.message);}
saveFile(this.relvar.name+'.csv',lines.join('\r\n')+'\r\n');}}
const csvText=cell=>typeof cell==='boolean'?String(cell).toUpperCase():String(cell);function csvCell(cell){const text=csvText(cell);return/[",\r\n]/.test(text)?'"'+text.replaceAll('"','""')+'"':text;}
function saveFile(name,text){const to=el('a',{href:URL.createObjectURL(new Blob([text],{type:'text/csv'})),download:name});to.click();setTimeout(()=>URL.revokeObjectURL(to.href),10000);}
function showList(name,params){const relvar=relvarNamed(name);if(!relvar)return showNothing('There is no list of this name.');if(!relvar.attributes.length)return showNothing('“'+plain(name)+'” has no columns.');return new Grid(relvar,params).show();}

const nextId=(()=>{let last=0;return()=>'field'+ ++last;})();function readInteger(words,typed){const text=typed.replace(/\s/g,'').replace(/^\+/,'');if(text==='')throw new Error(words+' is missing.');if(!/^-?\d+$/.test(text))throw new Error(words+' is a whole number, such as 12.');if(!isInteger(text))throw new Error(words+' is too large.');return integerCell(text);}
function readText(words,typed){if(typed.includes('\u0000'))throw new Error(words+' has a sign that cannot be kept.');if(bytesOf(typed)>7000)throw new Error(words+' is too long.');return typed;}
function readChoice(words,typed){if(!typed)throw new Error(words+' is missing.');return typed==='yes';}
function readLiteral(words,typed){if(!typed.trim())throw new Error(words+' is missing.');return typed.trim();}
function readPlain(type,words,typed){const read={INTEGER:readInteger,BOOLEAN:readChoice,CHAR:readText}[type];return read(words,typed);}
class Field{constructor(relvar,{name,type},cell){this.name=name;this.type=type;this.id=nextId();this.inputs=[];this.onchange=()=>{};this.fault=el('div',{class:'fault',id:this.id+'f',role:'alert'});this.hint=el('div',{class:'hint',id:this.id+'h'});const mark=keyMark(relvar,name),label=this.labelWords();this.defined=typeNamed(type);this.isLiteral=!isPlain(type)&&!(this.defined&&this.defined.components.every(part=>isPlain(part.type)));const controls=this.controls(cell);const isGroup=controls.length>1||!isPlain(type)&&!this.isLiteral;const title=isGroup?div('label',label,mark):el('label',{for:this.id},label,mark);const role=isGroup?{role:'group','aria-label':label}:{};this.node=el('div',{class:'field',...role},title,isGroup?div('parts',controls):controls,this.fault,this.hint);if(!isGroup)this.inputs[0].id=this.id;}
labelWords(){return plain(this.name);}
controls(cell){if(this.isLiteral)return[this.literalBox(cell)];if(isPlain(this.type))return[this.control(this.type,cell,this.name)];const cells=cell===undefined?[]:componentCells(this.defined,cell)||[];put(this.hint,ruleInWords(this.defined));return this.defined.components.map(({name,type},index)=>el('label',{},inSentence(name),this.control(type,cells[index],name)));}
control(type,cell,name){return this.take(type==='BOOLEAN'?yesOrNo(cell,name):this.textBox(type,cell));}
take(input){input.setAttribute('aria-describedby',this.fault.id+' '+this.hint.id);input.spellcheck=false;input.oninput=()=>this.changed();this.inputs.push(input);return input;}
changed(){this.tell('');this.onchange();}
textBox(type,cell){const box=el('input',{type:'text',inputMode:type==='INTEGER'?'numeric':'text',autocapitalize:'off',autocomplete:'off',dir:isText(type)?'auto':null});box.value=cell??'';return box;}
literalBox(cell){const area=el('textarea',{rows:3});area.value=cell??(this.type.startsWith('RELATION')?this.type+' { }':'');put(this.hint,'Written as '+this.type);return this.take(area);}
typed(){return this.inputs.map(input=>input.value);}
fill(typed){typed.forEach((text,index)=>{if(this.inputs[index])this.inputs[index].value=text;});}
read(){const typed=this.typed();if(this.isLiteral)return readLiteral(plain(this.name),typed[0]);if(isPlain(this.type))return readPlain(this.type,plain(this.name),typed[0]);const isOne=typed.length===1;return selectorOf(this.defined,this.defined.components.map((part,index)=>readPlain(part.type,plain(isOne?this.name:part.name),typed[index])));}
tell(words){put(this.fault,words);for(const input of this.inputs){if(words)input.setAttribute('aria-invalid','true');else input.removeAttribute('aria-invalid');}}
focus(){this.inputs[0].focus({preventScroll:false});}}
function yesOrNo(cell,name){const box=selectOf(plain(name),[['','–'],['yes','yes'],['no','no']]);if(cell!==undefined)box.value=cell?'yes':'no';return box;}
function keyMark(relvar,name){const key=relvar.keys.find(names=>names.includes(name));if(!key)return'';const others=key.filter(other=>other!==name).map(inSentence);const words=others.length?'Only once together with '+listed(others):'Only once in this list';return sign(' ◆',words,'mark');}
async function choicesOf(reference,name,typed){const from=relvarNamed(reference.free||reference.to);const isLong=!isSmall(from),contains=typed&&isText(from.types.get(name))&&isLong?{contains:typed}:{};const order=from.count>ORDERED?{}:{order:[[name,'up']]};const{rows}=await rowsOf(from.name,{count:isLong?50:SMALL,...order,...contains});return rows.map(row=>({cell:row[name],words:othersInWords(from,row,name)}));}
const hasChoice=({cell,words},typed)=>(cell+' '+words).toLowerCase().includes(typed.toLowerCase());class Choices{constructor(field,reference){this.field=field;this.reference=reference;this.input=field.inputs[0];this.all=[];this.asked=0;this.timer=0;this.list=el('div',{class:'choices',hidden:true,role:'group','aria-label':'From “'+plain(reference.free||reference.to)+'”'});this.list.onmousedown=event=>event.preventDefault();field.node.append(this.list);field.node.onkeydown=event=>this.press(event);field.node.addEventListener('focusout',event=>{if(!field.node.contains(event.relatedTarget))this.leave();});this.input.onclick=()=>this.open();this.input.onfocus=()=>{if(!this.input.value)this.open();};this.input.addEventListener('input',()=>this.narrow());this.explain();}
typed(){return this.input.value.trim();}
narrow(){put(this.field.hint,'');this.asked++;this.offer();clearTimeout(this.timer);this.timer=setTimeout(()=>this.open(),200);}
async open(){const asked=++this.asked;const all=await choicesOf(this.reference,this.field.name,this.typed()).catch(()=>null);if(!all||asked!==this.asked||focused()!==this.input)return;this.all=all;this.offer();}
offer(){const found=this.all.filter(choice=>hasChoice(choice,this.typed())).slice(0,50);draw(this.list,found.map(({cell,words})=>button([span('',cut(String(cell),60)),span('quiet',cut(words,80))],()=>this.pick(cell))));this.list.hidden=!found.length;}
pick(cell){this.input.value=cell;this.input.focus();this.field.changed();this.leave();}
leave(){this.asked++;clearTimeout(this.timer);this.list.hidden=true;this.explain();}
press(event){const step={ArrowDown:1,ArrowUp:-1}[event.key],isOpen=!this.list.hidden;if(event.key==='Escape'&&isOpen){event.stopPropagation();this.input.focus();this.leave();}
if(!step)return;event.preventDefault();const stops=[this.input,...this.list.children],at=stops.indexOf(focused())+step;if(isOpen)stops[(at+stops.length)%stops.length].focus();else this.open();}
async explain(){const typed=this.typed(),{field,reference}=this,parent=relvarNamed(reference.to);put(field.hint,'');if(!typed)return;try{const row={[field.name]:field.read()},found=await firstWhere(parent,row,[field.name]);if(this.typed()!==typed)return;if(found)put(field.hint,'✓ '+cut(othersInWords(parent,found,field.name),120));else field.tell(missesInWords({...reference,names:[field.name]},parent,row));}catch{}}}
function makeField(relvar,attribute,cell){const field=new Field(relvar,attribute,cell);const references=relvar.references.filter(({names})=>names.length===1&&names[0]===attribute.name);const reference=references.find(({free})=>free)||references[0];if(reference&&isPlain(attribute.type))new Choices(field,reference);return field;}

function closeForm(){const form=state.form;state.form=null;panel.hidden=true;draw(panel);keep('draft',null);if(state.view&&state.view.paintOpen)state.view.paintOpen();const back=form&&form.back.isConnected?form.back:byId('add')||main;back.focus({preventScroll:true});}
const mayLeave=()=>!state.form||!state.form.isTouched||confirm('What you typed is not saved. Leave it?');function leaveForm(){if(mayLeave())closeForm();}
function showPanel(...children){draw(panel,children);panel.hidden=false;if(state.view&&state.view.paintOpen)state.view.paintOpen();}
function panelHead(words){return div('bar head',el('h2',{},words),gap(),button('✕',leaveForm,'',{'aria-label':'Close',id:'close'}));}
function rowList(relvar,row,other){const isOther=name=>other&&name in other&&differsAt(relvar,row,other,name);return el('dl',{},namesOf(relvar).filter(name=>name in row).flatMap(name=>[el('dt',{},plain(name)),el('dd',{},el('span',{class:isOther(name)?'differs':''},cut(valueInWords(relvar,row,name),120)))]));}
function changeList(relvar,was,now){return el('dl',{},namesOf(relvar).filter(name=>differsAt(relvar,was,now,name)).flatMap(name=>[el('dt',{},plain(name)),el('dd',{},cut(valueInWords(relvar,was,name),80),' → ',span('differs',cut(valueInWords(relvar,now,name),80)))]));}
function showRow(relvar,row,isPast){state.form={id:relvar.name+json(keyOf(relvar).map(name=>row[name])),back:focused(),refresh:()=>{}};const from=relvar.isBase||!relvar.like?'':para('quiet','This list follows from others. Change it at ',link(listPath(relvar.like),plain(relvar.like),'quiet'),'.');showPanel(panelHead(plain(relvar.name)),rowList(relvar,row),from,relvar.isBase&&!isPast?historyDetails(relvar,row):'');byId('close').focus();}
function historyDetails(relvar,row){const node=details('History');node.id='history';node.ontoggle=()=>{if(node.open&&node.children.length===1)node.append(historyOf(relvar,row));};return node;}
function openForm(relvar,row,more){if(!mayLeave())return;const isPast=more&&more.at;if(!relvar.isBase||isPast||!mayWrite())return row&&showRow(relvar,row,isPast);state.form=new Form(relvar,row,more||{});state.form.show();}
class Form{constructor(relvar,old,more){this.relvar=relvar;this.old=old;this.more=more;this.back=focused();this.id=relvar.name+(old?json(keyOf(relvar).map(name=>old[name])):'+');this.isSaving=false;this.fields=relvar.attributes.map(attribute=>makeField(relvar,attribute,this.startValue(attribute.name)));this.typedFirst=this.typed();if(more.typed)this.fields.forEach((field,index)=>field.fill(more.typed[index]||[]));for(const field of this.fields)field.onchange=()=>this.changed();this.makeConditions();this.makeNode();}
startValue(name){return{...this.old,...this.more.given}[name];}
typed(){return this.fields.map(field=>field.typed());}
field(name){return this.fields.find(field=>field.name===name);}
makeConditions(){const{relvar,old,more}=this;const isOwnKey=reference=>relvar.keys.some(key=>key.length===1&&key[0]===reference.names[0]);this.free=old?null:relvar.references.find(reference=>reference.free&&reference.names.length===1&&isOwnKey(reference));this.ifSame=old&&this.tick('Only if nobody changed it since I looked','This also counts at the other sites.');this.orNext=this.free&&this.tick('If it is taken at another site by then, take the next of “'
+plain(this.free.free)+'”');this.unless=more.replaces&&!old&&!this.free&&this.tick('Only if my first entry does not count after all','An entry of another site that comes late may still make it count.');}
tick(words,about){const input=el('input',{type:'checkbox',checked:true,onchange:()=>this.changed()});const node=el('label',{class:'tick'},input,span('',words,about?[el('br'),span('quiet',about)]:''));return{input,node};}
makeNode(){const{old,more:{words,replaces}}=this;this.note=el('div',{role:'alert'});this.code=el('pre');this.save=el('button',{class:'main',type:'submit',id:'save'},old?'Save':'Add');const next=button('Add and next',()=>this.submit(true));this.remove=button('Delete',()=>this.askDelete(),'danger');const conditions=[this.ifSame,this.orNext,this.unless].map(condition=>condition?condition.node:'');this.node=el('form',{noValidate:true,onsubmit:event=>this.submitted(event),onkeydown:event=>{if(event.key==='Enter'&&(event.ctrlKey||event.metaKey))this.submitted(event);}},words?note('warn',words):'',this.fields.map(field=>field.node),conditions,this.note,div('bar acts',this.save,old||replaces?'':next,gap(),old?this.remove:''),old?historyDetails(this.relvar,old):'',details('For engineers',this.code));}
show(){showPanel(panelHead((this.old?'':'Add: ')+plain(this.relvar.name)),this.node);this.changed();(this.old?byId('close'):this.fields[0].inputs[0]).focus({preventScroll:true});if(this.old)this.refresh().catch(()=>{});}
changed(){const row=this.values(false);const isLike=row&&this.old&&!updateOf(this.relvar,this.old,row);put(this.code,!row?'Not all fields are filled in.'
:isLike?'Nothing is changed.':signed(this.statement(row)));const{old,more}=this,draft={relvar:this.relvar.name,old,typed:this.typed(),replaces:more.replaces};this.isTouched=!isSame(draft.typed,this.typedFirst);keep('draft',this.isTouched||more.given?draft:null);}
say(words,kind,...more){draw(this.note,note(kind||'bad',words,...more));}
tellAt(name,words){this.field(name).tell(words);this.field(name).focus();return true;}
values(isSaid){const row={};let unfit=null;for(const field of this.fields){try{row[field.name]=field.read();}catch(fault){if(isSaid)field.tell(fault.message);unfit=unfit||field;}}
if(unfit&&isSaid)unfit.focus();return unfit?null:row;}
statement(row){const{relvar,old}=this,isOn=condition=>condition&&condition.input.checked;if(old)return this.onlyIf(updateOf(relvar,old,row));if(isOn(this.unless))return insertionUnless(relvar,row,this.more.replaces.row);if(isOn(this.orNext))return insertionOrNext(relvar,row,this.free.names[0],this.free.free);return insertionOf(relvar,row);}
onlyIf(statement){return this.ifSame.input.checked?onlyIfSeen(this.relvar,this.old,statement):statement;}
submitted(event){event.preventDefault();this.submit(false);}
async submit(isNext){if(this.isSaving)return;const row=this.values(true);if(!row)return;if(this.old&&!updateOf(this.relvar,this.old,row))return this.say('Nothing is changed.','warn');await this.enter(()=>this.statement(row),row,isNext);}
askDelete(){if(this.isSure)return this.doDelete();this.isSure=true;put(this.remove,'Delete for good?');setTimeout(()=>{this.isSure=false;put(this.remove,'Delete');},5000);}
async doDelete(){if(!this.isSaving)await this.enter(()=>this.onlyIf(deletionOf(this.relvar,this.old)),this.old,false);}
async enter(statement,row,isNext){await needName();const text=signed(statement());const way=this.old?', or take off the tick.':'.';if(bytesOf(text)>LONGEST)return this.say('This entry is too long: shorten a field'+way);this.isSaving=this.save.disabled=true;draw(this.note);for(const field of this.fields)field.tell('');try{const tried=await tryOut(text),answer=tried.refused?tried:await issue(text);await(answer.refused?this.explain(answer,row):this.tellOutcome(answer,row,isNext));}catch(fault){this.say(fault.message);}
this.isSaving=this.save.disabled=false;}
async tellOutcome(answer,row,isNext){if(answer.waits){toast('Nothing can be saved now. Your entry is kept in this tab, and is sent later.');return this.done(isNext);}
if(!answer.changed.length)return this.tellNothing();if(this.more.replaces)await settle(this.more.replaces.stamp).catch(toastFault);toast(this.otherWords(answer.changed,row)||(this.old?'Saved.':'Added.'));this.done(isNext);}
otherWords(changed,row){const change=this.free&&changed.find(({relvar})=>relvar===this.relvar.name);if(!change||!change.in.length)return'';const name=this.free.names[0],took=changedRows(change)[0].now;if(!differsAt(this.relvar,took,row,name))return'';return plain(name)+' '+valueInWords(this.relvar,row,name)+' is taken: it is '
+valueInWords(this.relvar,took,name)+' now.';}
async tellNothing(){if(!this.old)return this.say('It was there already, just so.','warn');const now=await firstWhere(this.relvar,this.old,keyOf(this.relvar));if(now)this.tellChange(now,'Nothing was saved: somebody changed this since you looked.');else this.say('Nothing was saved: somebody deleted it.');}
done(isNext){if(state.form!==this)return;closeForm();if(isNext)openForm(this.relvar,null);}
async explain({refused,breaks},row){const isTold=!breaks?await this.explainValues(row):isKey(breaks)?await this.explainKey(row)
:await this.explainRule(constraintNamed(breaks.name),row);if(!isTold)this.say(reasonInWords(refused,breaks));}
async explainValues(row){for(const{name,defined,isLiteral}of this.fields){const words=defined||isLiteral?await unfitWords(name,defined,row[name]):'';if(words)return this.tellAt(name,words);}
return false;}
async explainKey(row){const{relvar,old}=this;for(const key of relvar.keys){const isAsBefore=old&&!key.some(name=>differsAt(relvar,old,row,name));const takesNext=this.orNext&&this.orNext.input.checked&&isSame(key,this.free.names);const there=isAsBefore||takesNext?null:await firstWhere(relvar,row,key);if(there)return this.tellKey(key,there);}
return false;}
tellKey(key,there){const[first]=key.length?key:namesOf(this.relvar);this.tellAt(first,existsInWords(this.relvar,there,key));this.field(first).fault.append(' ',button('Open it',()=>openForm(this.relvar,there),'plain'));return true;}
explainRule(constraint,row){const{reference,text}=constraint,{name}=this.relvar;if(reference&&reference.from===name){return this.tellAt(reference.names[0],missesInWords(reference,this.relvar,row));}
if(reference&&reference.to===name)return this.tellNeed(reference);const words=wordsOf(text),field=this.fields.find(other=>words.includes(other.name));if(field)this.tellAt(field.name,ruleNotAllowed(constraint));this.say(ruleNotAllowed(constraint),'bad',details('The rule',pre('',text)));return true;}
async tellNeed({from,names}){const{relvar,old}=this,filters=names.map(name=>name+':is:'+old[name]);const count=await valueOf('COUNT ( '+where(relvarNamed(from),equalAt(relvar,old,names))+' )');this.say(counted(count,'entry','entries')+' in “'+plain(from)+'” need'+(count===1?'s':'')
+' this one as it is. ','bad',el('a',{href:linkTo(from,filters)},'Show'));return true;}
tellChange(now,words){const keepMine=()=>{const typed=this.typed().map((texts,index)=>isSame(texts,this.typedFirst[index])?[]:texts);this.isTouched=false;openForm(this.relvar,now,{typed,replaces:this.more.replaces});};draw(this.note,el('div',{class:'note warn',id:'changed'},el('b',{},words),changeList(this.relvar,this.old,now),bar(button('Keep my fields, on top of this',keepMine),button('Show what is there now',()=>openForm(this.relvar,now)))));}
async refresh(){if(!this.old||this.isSaving)return;const now=await firstWhere(this.relvar,this.old,keyOf(this.relvar));if(state.form!==this||this.isSaving)return;if(!now)return this.say('This is no longer here: somebody deleted it, or changed what it is found by.','warn');if(!namesOf(this.relvar).some(name=>differsAt(this.relvar,this.old,now,name)))return;this.tellChange(now,'This was changed while you looked.');}}
async function unfitWords(name,type,literal){try{if(!(await query(literal)).raised)return'';}catch(fault){if(fault instanceof Away)throw fault;return plain(name)+': '+fault.message.split('\n')[0];}
const rule=ruleInWords(type);return plain(name)+' is not allowed'+(rule?': it must be '+rule+'.':'.');}

function changedRows(change){const relvar=relvarNamed(change.relvar);const rows=cells=>Object.fromEntries(relvar.sent.map((name,index)=>[name,cells[index]]));const came=change.in.map(rows);const pairs=change.out.map(rows).map(was=>{const at=came.findIndex(now=>equalAt(relvar,now,keyOf(relvar))===equalAt(relvar,was,keyOf(relvar)));return{relvar,was,now:at<0?null:came.splice(at,1)[0]};});return pairs.concat(came.map(now=>({relvar,was:null,now})));}
function rowChangeInWords({relvar,was,now}){if(!was)return'Added '+rowInWords(relvar,now,namesOf(relvar));if(!now)return'Deleted '+rowInWords(relvar,was,namesOf(relvar));const names=namesOf(relvar).filter(name=>differsAt(relvar,was,now,name));return'Changed '+rowInWords(relvar,now,keyOf(relvar))+': '+pairsInWords(relvar,now,names);}
function changeInWords(change){const rows=changedRows(change),count=rows.length+change.more;return plain(change.relvar)+': '+(count===1?rowChangeInWords(rows[0]):counted(count,'row','rows')+', '
+rowChangeInWords(rows[0])+' ..');}
function wishInWords(text){const wish=readStatement(state.schema.relvars,text);if(!wish)return withoutComments(text);const{relvar,does,rows,key,values}=wish,name=plain(relvar.name)+': ';if(does==='add'&&rows.length>1)return name+'Add '+counted(rows.length,'row','rows');if(does==='add')return name+'Add '+rowInWords(relvar,rows[0],namesOf(relvar));const whom=rowInWords(relvar,key,keyOf(relvar));if(does==='remove')return name+'Delete '+whom;return name+'Change '+whom+': '+pairsInWords(relvar,values,Object.keys(values));}
const withoutComments=text=>text.replace(/^\s*(\/\*[^]*?\*\/\s*)*/,'');const entryInWords=entry=>entry.changed&&entry.changed.length?entry.changed.map(changeInWords).join(' · '):wishInWords(entry.text);const CONFIRMED='The server knew by the token who wrote this';const writer=({author,confirmed,stamp})=>[cut(author||'site '+siteOf(stamp),40),confirmed?sign(' ✓',CONFIRMED,'good'):''];function showHead(words,about){const holder=div('');draw(main,el('h2',{},words),about?para('quiet',about):'',holder);return holder;}
function redraw(holder,cards){const wordsOf=nodes=>json([...nodes].map(node=>node.textContent));if(wordsOf(cards)===wordsOf(holder.childNodes))return;const stampOf=node=>node.closest('[data-at]')&&node.closest('[data-at]').dataset.at;const open=new Set([...holder.querySelectorAll('details[open]')].map(stampOf));const controls=card=>[...card.querySelectorAll('button, summary')];const control=hasFocus(holder)?focused():null,at=control&&stampOf(control);const index=at?controls(control.closest('[data-at]')).indexOf(control):-1;draw(holder,cards);for(const card of holder.querySelectorAll('[data-at]')){for(const details of card.querySelectorAll('details'))details.open=open.has(card.dataset.at);if(at===card.dataset.at&&controls(card)[index])controls(card)[index].focus({preventScroll:true});}}
const cameInWords=({came})=>came?dateInWords(came*1000)+' · ':'';function card(entry,kind,title,extra,...children){const when=entry.failure?'':cameInWords(entry)+entry.stamp;const top=div('top',title,span('',extra,' ',span('quiet',when)));return el('section',{class:'card '+kind,'data-at':entry.stamp},top,children);}
const statementOf=entry=>details('For engineers',pre('',cut(entry.text,2000)));async function showLook(){const holder=showHead('Needs a look','What was saved here, and came out differently once other sites were met.');state.view={path:'look',refresh:()=>state.form?null:paint()};async function paint(){const cards=await Promise.all(troubles().map(lookCard));redraw(holder,cards.length?cards:[div('empty','All is well: nothing needs a look.')]);}
return paint();}
const firstNow=changes=>changes.flatMap(changedRows).find(row=>row.now);async function wishAndFact(entry){const{relvar:other,now:there}=entry.was&&firstNow(entry.changed)||{};const was=other&&readChange(other,entry.was);if(was)return{relvar:other,wanted:was,now:there};const wish=readStatement(state.schema.relvars,entry.text);if(!wish)return{};const{relvar}=wish,wanted=wish.does==='add'?wish.rows[0]:{...wish.key,...wish.values};const keys=wish.does==='add'&&isKey(entry.breaks)?relvar.keys:[keyOf(relvar)];for(const key of keys){const now=await firstWhere(relvar,{...wanted,...wish.key},key).catch(()=>null);if(now)return{relvar,wish,wanted,now};}
return{relvar,wish,wanted,now:null};}
function enterAgain(entry,{wish,relvar,wanted,now}){if(!wish||wish.does==='remove')return go('engineer',new URLSearchParams({text:withoutKey(entry.text)}));const replaces={stamp:entry.stamp,row:wanted};const about={words:'Enter it again. It was: '+wishInWords(entry.text),replaces};if(wish.does==='change'&&now)openForm(relvar,now,{...about,given:wish.values});else openForm(relvar,null,{...about,given:wanted});}
async function lookCard(entry){const found=await wishAndFact(entry),{relvar,wish,wanted,now}=found,isOther=!entry.reason;const isElsewhere=isOther&&entry.changed.length>0;const title=isElsewhere?'Saved, but otherwise than you saw'
:isOther?'It has no effect any more':entry.failure?'Not saved':'Not saved any more';const words=isElsewhere?'Another site was first, and the entry took what it says for that case.'
:isOther?'Another site changed it first.'
:entry.failure||'Another site was first. '+reasonInWords(entry.reason,entry.breaks);const columns=relvar?el('div',{class:'two'},div('',el('h4',{},isElsewhere?'As you saw it':'Wanted'),rowList(relvar,wanted)),div('',el('h4',{},'There now'),now?rowList(relvar,now,wanted):para('quiet','nothing'))):'';const leave=()=>settle(entry.stamp).catch(toastFault),again=wish&&wish.does==='remove'
?'Look at it':'Enter again with changes';const author=entry.author?[writer(entry),' · ']:'';return card(entry,'hot',el('b',{},title),author,para('bad',words),columns,statementOf(entry),bar(isElsewhere||!mayWrite()?'':button(again,()=>enterAgain(entry,found),'main'),mayWrite()||entry.failure?button(isElsewhere?'I have seen it':'Leave it',leave):''));}
function entryCard(entry,extra){const isDone=!entry.reason,changed=entry.changed||[];const tag=!isDone?span('tag bad','refused')
:changed.length?'':span('tag','changed nothing');const title=el('span',{dir:'auto'},el('b',{},writer(entry)),' ',cut(entryInWords(entry),240));return card(entry,'',title,[extra||'',' ',tag],isDone?''
:para('bad',reasonInWords(entry.reason,entry.breaks)),statementOf(entry));}
const waitingCard=({text,failure})=>card({},'',wishInWords(text),span('tag warn',failure?'not saved':'waits for the server'));const placeTag=entry=>entry.number>sentNumber()?span('tag warn','here only'):span('tag good','at another site');async function ownEntries(){const isOwn=entry=>siteOf(entry.stamp)===state.site.site;const author=authorName();if(author)return(await log({author,last:200})).filter(isOwn);const[oldest]=[...mine].sort(isEarlier);return oldest?(await log({after:stampBefore(oldest)})).filter(entry=>mine.includes(entry.stamp)):[];}
async function showMine(){const holder=showHead('My entries',authorName()?'What '+authorName()+' entered at this site, the last first.'
:'What was entered in this tab. Give your name (above) to find what you entered before.');let own=[],sent=0;const paint=()=>redraw(holder,outbox.length||own.length?[...outbox.map(waitingCard),...own.map(entry=>entryCard(entry,placeTag(entry))).reverse()]:[div('empty','Nothing yet.')]);const refresh=async()=>{own=await ownEntries().catch(()=>own);paint();};const tick=()=>{if(sent!==sentNumber()&&own.length)paint();sent=sentNumber();};state.view={path:'mine',refresh,tick};return refresh();}
const hasWords=(entry,text)=>json(entry).toLowerCase().includes(text.toLowerCase());async function foundEntries(text,isRefused,last){if(isRefused)return(await refusedEntries()).filter(entry=>hasWords(entry,text)).slice(-last);return log(text?{contains:text,last}:{last});}
function showLog(){const holder=showHead('All entries','What was entered at all sites, in the order in which it counts, last first.');const box=searchBox('Search in all entries','',()=>paint());const status=el('span',{class:'quiet',role:'status'});const only=el('input',{type:'checkbox',onchange:()=>paint()});let last=50;const further=button('Show more',()=>{last+=100;paint();});async function paint(){try{const entries=await foundEntries(box.value.trim(),only.checked,last);further.hidden=entries.length<last;put(status,entries.length?'':'Nothing fits.');redraw(holder,entries.map(entry=>entryCard(entry)).reverse());}catch(fault){put(status,fault.message);}}
holder.before(bar(box,el('label',{class:'tick'},only,'refused only'),status));holder.after(bar(further));state.view={path:'log',refresh:paint};return paint();}
function keyFilter(relvar,row){const key=Object.fromEntries(keyOf(relvar).map(name=>[name,row[name]]));return{relvar:relvar.name,key:json(key),last:50};}
function historyCard(relvar,row,entry){const rows=entry.changed.filter(change=>change.relvar===relvar.name).flatMap(changedRows);const hasKey=other=>other&&!keyOf(relvar).some(name=>differsAt(relvar,other,row,name));const isIt=found=>hasKey(found.was)||hasKey(found.now);const{was,now}=rows.find(isIt)||{};const title=was?now?'Changed':'Deleted':now?'Added':'Changed with others';return card(entry,'',el('b',{},title),[writer(entry),entry.author?', site '+siteOf(entry.stamp):''],was&&now?changeList(relvar,was,now):now?rowList(relvar,now):'');}
function historyOf(relvar,row){const holder=div('','Looking…');log(keyFilter(relvar,row)).then(entries=>{const cards=entries.reverse().map(entry=>historyCard(relvar,row,entry));draw(holder,cards.length?cards:[para('quiet','It was there from the start.')]);}).catch(fault=>put(holder,fault.message));return holder;}
async function lastBy(seconds,filter){let first=Infinity;for(let before={};;){const part=await log({...filter,...before,last:1000}),known=part.filter(({came})=>came!==null);const last=known.findLast(({came})=>came<=seconds);if(last||!part.length)return{last,first};first=Math.min(first,...known.map(({came})=>came));before={before:part[0].stamp};}}
async function showPast(name){const relvar=relvarNamed(name);if(!relvar)return showNothing('There is no list of this name.');const holder=showHead('As it was: '+plain(name),'At a time, or after an entry, by what is known today: an entry that comes late counts too.');const of=relvar.isBase?{relvar:name}:{},status=el('span',{class:'quiet',role:'status'});const at=(stamp,t)=>route(listPath(name),new URLSearchParams({at:stamp,...t?{t}:{}}));const time=el('input',{type:'datetime-local','aria-label':'Date and time',id:'time'}),now=new Date();now.setMinutes(-now.getTimezoneOffset(),0,0);time.value=now.toISOString().slice(0,16);const look=async()=>{if(!time.value)return put(status,'Choose a date and a time.');put(status,'Looking…');const{last,first}=await lastBy(new Date(time.value)/1000,of);if(last)location.hash=at(last.stamp,time.value);else put(status,first<Infinity?'It is known since '+dateInWords(first*1000)+' when entries came.'
:'It is not known of any entry when it came.');};const box=searchBox('Search the entries','',()=>paint());state.view={path:'past/'+name};const paint=async()=>{const text=box.value.trim(),contains=text?{contains:text}:{};const entries=(await log({last:60,...of,...contains})).filter(entry=>!entry.reason);draw(holder,entries.reverse().map(entry=>bar(el('a',{class:'button',href:at(entry.stamp)},entry.stamp),span('',span('quiet',cameInWords(entry)),writer(entry),' ',cut(entryInWords(entry),140)))));};holder.before(bar(time,button('Show',()=>look().catch(fault=>put(status,fault.message)),'main'),status),bar(box));return paint();}

async function meet(address,node){node.disabled=true;try{await call('/api/meet',{address});toast('The other site is called.');setTimeout(poll,700);}catch(fault){toastFault(fault);}
node.disabled=false;}
function peerCard({site,address,called,met,failed}){const name=site?'Site '+site:address;const act=button('Meet now',event=>meet(address,event.target),'',{'aria-label':'Meet now: '+name});return div('card',div('top',el('b',{},name),called&&state.client.rights==='all'?act:''),para('',met===null?'Not met yet':'Met '+ago(met+elapsed()),failed?span('bad',' · '+counted(failed,'call','calls')+' failed since'):''));}
function meetingLine(meeting){return el('tr',{},el('td',{},(meeting.called?'to ':'from ')+meeting.peer),el('td',{},ago(secondsSince(meeting))),el('td',{class:meeting.met?'':'bad'},cut(meeting.words,600)));}
function siteCards(){const{held,limit,peers,meetings}=state.site,waiting=unsent(),[kind,words]=linkWords();const sent=waiting?counted(waiting,'entry of this site waits','entries of this site wait')+' to be sent.'
:'Nothing waits to be sent.';return[note(kind||'good',words),para('',sent+' ',el('span',{class:'quiet'},counted(held,'entry is','entries are')+' kept here, and there is room for '+number(limit-held)+' more.')),...peers.map(peerCard),details('Meetings, for engineers',tableOf([],el('tbody',{},meetings.map(meetingLine))))];}
function showSites(){const holder=showHead('Other sites');let shown='';const tick=()=>{const cards=siteCards(),text=cards.map(node=>node.textContent).join();if(text===shown)return;const label=hasFocus(holder)?focused().getAttribute('aria-label'):'';const isOpen=Boolean(holder.querySelector('[open]'));draw(holder,cards);holder.querySelector('details').open=isOpen;shown=text;for(const node of holder.querySelectorAll('button'))if(node.getAttribute('aria-label')===label)node.focus();};state.view={path:'sites',tick};tick();}

const SEPARATORS=[',',';','\t'];function quotedCell(text,from,line){let cell='';for(let at=from;;at++){const end=text.indexOf('"',at);if(end<0)throw new Error('A quotation mark in line '+line+' is not closed.');cell+=text.slice(at,end);if(text[end+1]!=='"')return[cell,end+1];cell+='"';at=end+1;}}
function readCsv(file){const text=file.replace(/^\ufeff/,'').replaceAll('\r\n','\n'),head=text.split('\n',1)[0];const separator=SEPARATORS.reduce((best,sign)=>head.split(sign).length>head.split(best).length?sign:best);const lines=[[]];let cell='';const endCell=()=>{lines.at(-1).push(cell);cell='';};for(let at=0;at<text.length;){const sign=text[at++];if(sign==='"'&&cell==='')[cell,at]=quotedCell(text,at,lines.length);else if(sign===separator)endCell();else if(sign==='\n'){endCell();lines.push([]);}else cell+=sign;}
endCell();return lines.filter(cells=>cells.length>1||cells[0]!=='');}
const unfitCell=(words,typed,reason)=>new Error(words+': “'+cut(typed,30)+'” '+reason);function booleanFromCsv(words,typed){if(/^(true|yes|1)$/i.test(typed.trim()))return true;if(/^(false|no|0)$/i.test(typed.trim()))return false;throw unfitCell(words,typed,'is not yes or no');}
function cellFromCsv(type,words,typed){if(type==='BOOLEAN')return booleanFromCsv(words,typed);if(type==='INTEGER'&&!isInteger(typed.trim()))throw unfitCell(words,typed,'is no whole number');if(isText(type)&&/[\u0000\r\n]/.test(typed))throw new Error(words+' has a line end');if(isPlain(type))return cellOf(type,isText(type)?quoted(typed):typed);const defined=typeNamed(type),[component]=defined?defined.components:[];if(defined&&defined.components.length===1&&!typed.includes('(')){const bare=typed.replace(new RegExp('\\s*'+component.name+'$','i'),'');return selectorOf(defined,[cellFromCsv(component.type,words,bare)]);}
if(!typed.trim())throw new Error(words+' is missing');if(defined&&!componentCells(defined,typed))throw unfitCell(words,typed,'is no '+defined.possrep+' ( .. )');return typed;}
function chunksOf(rows,textOf){const chunks=[];let bytes=Infinity;for(const row of rows){const size=bytesOf(textOf(row))+2;if(bytes+size>7000)chunks.push([]);bytes=chunks.at(-1).length?bytes+size:size;chunks.at(-1).push(row);}
return chunks;}
class Upload{constructor(relvar){this.relvar=relvar;this.names=namesOf(relvar);this.out=el('div',{id:'upload'});const file=el('input',{type:'file',accept:'.csv,.tsv,.txt,text/csv','aria-label':'CSV file',id:'file'});file.onchange=()=>this.take(file.files[0]);main.append(bar(file,link(listPath(relvar.name),'Back to the list')),this.out);}
async take(file){put(this.out,'Looking…');try{await this.look(await file.text());}catch(fault){draw(this.out,note('bad',fault.message));}}
columnsOf(head){const isAt=name=>heading=>[name,plain(name)].some(words=>words.toLowerCase()===heading.toLowerCase());const columns=this.names.map(name=>head.findIndex(isAt(name)));const missing=this.names.filter((_,index)=>columns[index]<0);if(!missing.length)return columns;throw new Error('The file lacks '+listed(missing.map(plain))+'. Its first line has: '+head.join(', '));}
readLines(text){const[head=[],...lines]=readCsv(text),columns=this.columnsOf(head.map(cell=>cell.trim()));const seen=new Map();return lines.map((cells,index)=>{const line=index+2;try{if(cells.length!==head.length)throw new Error('has '+cells.length+' cells and not '+head.length);const row=Object.fromEntries(this.relvar.attributes.map(({name,type},at)=>[name,cellFromCsv(type,plain(name),cells[columns[at]])]));this.noteKeys(seen,row,line);return{line,row};}catch(fault){return{line,unfit:fault.message};}});}
noteKeys(seen,row,line){for(const key of this.relvar.keys){const id=equalAt(this.relvar,row,key);if(seen.has(id))throw new Error('has the same '+listed(key.map(inSentence))+' as line '+seen.get(id));seen.set(id,line);}}
async markFound(lines,names,operator,words){const tuple=({row})=>tupleOf(this.relvar,row,names),idOf=row=>equalAt(this.relvar,row,names);for(const chunk of chunksOf(lines.filter(({unfit})=>!unfit),tuple)){const{rows}=await rowsOf(relationOf(chunk.map(tuple))+operator),found=new Set(rows.map(idOf));for(const line of chunk)if(found.has(idOf(line.row)))line.unfit=words(line.row);}}
async markValues(lines,{name,type}){const defined=typeNamed(type),unfit=new Map();for(const literal of new Set(defined?lines.filter(line=>line.row).map(({row})=>row[name]):[])){unfit.set(literal,await unfitWords(name,defined,literal));}
for(const line of lines)if(!line.unfit)line.unfit=unfit.get(line.row[name]);}
chunks(lines){return chunksOf(lines,({row})=>rowText(this.relvar,row));}
insertion(lines){return insertionOf(this.relvar,...lines.map(({row})=>row));}
async markRefused(lines){const{refused,breaks}=lines.length?await tryOut(this.insertion(lines)):{};if(refused&&lines.length===1)lines[0].unfit=reasonInWords(refused,breaks);if(!refused||lines.length===1)return;await this.markRefused(lines.slice(0,lines.length/2));await this.markRefused(lines.slice(lines.length/2));}
async look(text){const lines=this.readLines(text),{relvar}=this;put(this.out,'Checking '+counted(lines.length,'line','lines')+'…');for(const key of relvar.keys.filter(names=>names.length)){await this.markFound(lines,key,' MATCHING '+relvar.name,row=>'is there already: '+pairsInWords(relvar,row,key));}
for(const reference of relvar.references){await this.markFound(lines,reference.names,' NOT MATCHING '+reference.to,row=>missesInWords(reference,relvar,row));}
for(const attribute of relvar.attributes)await this.markValues(lines,attribute);for(const chunk of this.chunks(lines.filter(line=>!line.unfit)))await this.markRefused(chunk);this.showPlan(lines.filter(line=>!line.unfit),lines.filter(line=>line.unfit));}
showPlan(good,bad){const chunks=this.chunks(good),{held,limit}=state.site;const left=bad.length?', '+counted(bad.length,'does','do')+' not and will be left out':'';const start=button('Add '+counted(good.length,'line','lines'),()=>this.run(chunks,good.length),'main',{id:'start',disabled:!good.length});const words=counted(good.length,'line fits','lines fit')+left+'. They take '+number(chunks.length)
+' of the '+number(limit-held)+' entries for which there is room.';draw(this.out,note(bad.length?'warn':'good',words),bad.length?this.unfitList(bad):'',bar(start),el('h3',{},'The first lines'),this.preview(good.slice(0,20)));}
unfitList(bad){const lines=bad.slice(0,50).map(({line,unfit})=>'Line '+line+' '+cut(unfit,200));if(bad.length>50)lines.push('and '+(bad.length-50)+' more');const list=details('Lines that do not fit',el('ul',{},lines.map(words=>el('li',{},words))));list.open=true;return list;}
preview(lines){const head=this.names.map(name=>el('th',{},span('',plain(name))));return tableOf(head,el('tbody',{},lines.map(({row})=>el('tr',{},this.names.map(name=>el('td',{},cut(valueInWords(this.relvar,row,name),120)))))));}
async run(chunks,total){await needName();this.failures=[];this.added=0;state.isUploading=true;const progress=el('progress',{max:total,value:0,'aria-label':'Saved'});const words=el('p',{role:'status'});draw(this.out,words,progress);for(const chunk of chunks){await this.send(chunk,words);progress.value=this.added;put(words,number(this.added)+' of '+number(total)+' saved');}
state.isUploading=false;siteTag=null;poll();this.showEnd();}
async send(chunk,words){const text=signed(this.insertion(chunk)),key=newKey();for(;;){try{const{refused,breaks}=await call('/api/statement',{text,key});if(refused)this.fail(chunk,reasonInWords(refused,breaks));else this.added+=chunk.length;return;}catch(fault){if(!(fault instanceof Away))return this.fail(chunk,fault.message);put(words,fault.message+' Waiting…');await pause(2000);}}}
fail(chunk,reason){this.failures.push('Lines '+chunk[0].line+' to '+chunk.at(-1).line+' were refused: '+reason);}
showEnd(){const kind=this.failures.length?'warn':'good';const words=counted(this.added,'line was','lines were')+' added.';draw(this.out,el('div',{class:'note '+kind,id:'uploaded'},words),el('ul',{},this.failures.map(words=>el('li',{class:'bad'},words))),link(listPath(this.relvar.name),'To the list','button main'));}}
function showUpload(name){const relvar=relvarNamed(name);if(!relvar||!relvar.isBase||!mayWrite())return showNothing('Nothing can be uploaded here.');showHead('Upload CSV: '+plain(name),'The first line has the names '+listed(namesOf(relvar).map(plain))
+', in any order. Nothing is saved before you have seen it.');state.view={path:'upload/'+name};return void new Upload(relvar);}

const withoutKey=text=>text.replace(/^(\/\* ([0-9a-f]{16}|by [^]*?) \*\/ )+/,'');class Box{constructor(text){this.past=kept('past',[]);this.position=this.past.length;this.text=el('textarea',{'aria-label':'Query or statement',autocapitalize:'off'});this.text.spellcheck=false;this.text.value=text||kept('box','');this.text.oninput=()=>keep('box',this.text.value);this.text.onkeydown=event=>this.press(event);this.at=el('input',{size:8,placeholder:'now','aria-label':'as of a stamp',id:'at'});this.out=el('div',{'aria-live':'polite',id:'answer'});}
nodes(){return[this.text,bar(button('Run (Ctrl+Enter)',()=>this.run(),'main',{id:'run'}),el('label',{},'as of ',this.at)),this.out];}
edit(text){this.text.value=withoutKey(text);this.text.focus();}
press(event){const{value,selectionStart,selectionEnd}=this.text,isEnter=event.key==='Enter';if(isEnter&&(event.ctrlKey||event.metaKey))this.run();else if(event.key==='ArrowUp'&&!value.slice(0,selectionStart).includes('\n'))this.recall(-1);else if(event.key==='ArrowDown'&&!value.slice(selectionEnd).includes('\n'))this.recall(1);else return;event.preventDefault();}
recall(step){const position=this.position+step;if(position<0||position>this.past.length)return;this.position=position;this.text.value=this.past[position]||'';}
remember(text){if(this.past.at(-1)!==text)this.past.push(text);keep('past',this.past=this.past.slice(-100));this.position=this.past.length;}
async run(){const text=this.text.value.trim(),at=this.at.value.trim();if(!text)return;this.remember(text);try{if(text.endsWith(';'))await this.runStatement(text,at);else await this.runQuery(text,at?{at}:{});}catch(fault){draw(this.out,pre('bad',fault.message));}}
async runStatement(text,at){if(at)throw new Error('A statement is issued now and never in the past. Empty “as of” first, or ask a query.');const answer=await issue(text);const words=answer.waits?answer.why+' The statement is kept in this tab, and is sent again under its key.'
:answer.stamp+(answer.refused?' refused: '+answer.refused:' done');draw(this.out,note(answer.refused?'bad':'good',words),(answer.changed||[]).length?para('',answer.changed.map(changeInWords).join(' · ')):'');}
async runQuery(text,moment){const page=first=>query(text,{...moment,first,count:200}),answer=await page(0);if(answer.heading)return this.showRelation(answer,page);draw(this.out,answer.raised?pre('bad','raised: '+answer.raised)
:pre('',String(answer.value)));}
showRelation(answer,page){const body=el('tbody'),words=para('quiet');const further=button('More',()=>page(body.rows.length).then(add).catch(toastFault));const add=({rows,total})=>{body.append(...rows.map(cells=>el('tr',{},cells.map(cell=>el('td',{},cut(csvText(cell),2000))))));put(words,number(body.rows.length)+' of '+number(total));further.hidden=body.rows.length>=total;};const head=answer.heading.map(({name,type})=>el('th',{scope:'col'},el('span',{title:type},name)));draw(this.out,tableOf(head,body),words,further);add(answer);}}
function refusedCard(box,entry){return card(entry,'',span('bad',entry.reason),mayWrite()?button('Change',()=>box.edit(entry.text)):'',pre('',cut(entry.text,2000)));}
function showEngineer(_,params){const box=new Box(params.get('text')),script=pre(''),refused=div('');showHead('Query or statement','Tutorial D. A statement ends with a semicolon.').append(...box.nodes(),details('Refused statements',refused),details('Script',script));const refresh=async()=>redraw(refused,(await refusedEntries()).slice(-200).reverse().map(entry=>refusedCard(box,entry)));state.view={path:'engineer',refresh};refresh().catch(toastFault);box.text.focus({preventScroll:true});return call('/api/script').then(told=>put(script,told.script));}

function showNothing(words){state.view=null;draw(main,div('empty',words));}
function navLink(path,words){return el('a',{href:'#/'+path},span('',words),el('span'));}
const listLink=({name})=>navLink(listPath(name),plain(name));function makeNav(){const{bases,virtual}=state.schema;draw(nav,el('h2',{},'Lists'),bases.map(listLink),virtual.length?el('h2',{},'That follow from them'):'',virtual.map(listLink),el('h2',{},'Work'),navLink('look','Needs a look'),navLink('mine','My entries'),navLink('log','All entries'),navLink('sites','Other sites'),navLink('engineer','Query or statement'));}
function navCount(path){if(path==='look')return troubles().length||'';if(path==='mine')return outbox.length||'';const relvar=path.startsWith('list/')?relvarNamed(path.slice(5)):null;return relvar&&relvar.count!==null?number(relvar.count):'';}
let navSchema=null;function paintNav(){if(!state.schema)return;if(navSchema!==state.schema)makeNav();navSchema=state.schema;const here=currentPath().replace(/^(upload|past)\//,'list/');for(const node of nav.querySelectorAll('a')){const path=decodeURIComponent(node.getAttribute('href').slice(2)),count=String(navCount(path));if(path===here)node.setAttribute('aria-current','page');else node.removeAttribute('aria-current');put(node.lastChild,count);node.lastChild.className=path==='look'&&count?'hot':'';}}
function currentPath(){try{return decodeURIComponent(location.hash.slice(2).split('?')[0]);}catch{return'';}}
const currentParams=()=>new URLSearchParams(location.hash.split('?').slice(1).join('?'));const PAGES=new Map([['list',showList],['look',showLook],['mine',showMine],['log',showLog],['sites',showSites],['engineer',showEngineer],['upload',showUpload],['past',showPast]]);function setMenu(isOpen){nav.classList.toggle('open',isOpen);byId('menu').setAttribute('aria-expanded',String(isOpen));}
function show(){if(!state.schema)return;const path=currentPath(),[kind,...rest]=path.split('/'),was=state.view&&state.view.path;setMenu(false);const first=state.schema.bases[0]||state.schema.virtual[0];if(!kind&&first)return go(listPath(first.name),null,true);if(state.form&&was!==path&&!state.form.isTouched)closeForm();const page=PAGES.get(kind)||(()=>showNothing('There is no such page.'));Promise.resolve(page(rest.join('/'),currentParams())).catch(toastFault);paintNav();if(was!==path)main.scrollTop=0;}
function pressKey(event){if(event.key==='Escape'&&nav.classList.contains('open')){setMenu(false);byId('menu').focus();}else if(event.key==='Escape'&&state.form&&!byId('ask').open)leaveForm();if(event.ctrlKey||event.metaKey||event.altKey||/INPUT|TEXTAREA|SELECT/.test(event.target.tagName))return;const node=event.key==='/'?byId('search'):event.key.toLowerCase()==='n'?byId('add'):null;if(!node)return;event.preventDefault();if(event.key==='/')node.focus();else node.click();}
function listen(){byId('menu').onclick=()=>{setMenu(!nav.classList.contains('open'));if(nav.classList.contains('open'))nav.querySelector('a').focus();};byId('state').onclick=()=>{location.hash='#/sites';};byId('alarm').onclick=()=>{location.hash='#/look';};byId('who').onclick=askName;byId('nameinput').onkeydown=event=>{if(event.key!=='Enter')return;event.preventDefault();byId('nameok').click();};addEventListener('hashchange',show);addEventListener('keydown',pressKey);addEventListener('beforeunload',event=>{if(outbox.length||state.isUploading)event.preventDefault();});const isVisible=()=>document.visibilityState==='visible';document.onvisibilitychange=()=>{if(isVisible())poll();};setInterval(()=>{if(isVisible()&&Date.now()-lastPoll>EVERY-200)poll();},EVERY);}
function openDraft(){const draft=kept('draft',null),relvar=draft&&relvarNamed(draft.relvar);if(!relvar)return;if(currentPath()!=='list/'+relvar.name)go(listPath(relvar.name),null,true);openForm(relvar,draft.old,{typed:draft.typed,replaces:draft.replaces,words:'What you had begun to enter is still here.'});}
function showKnown(){const known=kept('shown',null);if(!known)return;takeSchema(known.schema,known.counts);state.site={...known.site,meetings:[],alarms:[]};state.client=known.client;}
async function start(){takeToken();listen();for(const entry of outbox)entry.waits=true;showKnown();paintState();for(let begun=false;!begun;){if(state.schema){show();openDraft();begun=true;}
await poll();if(!state.schema)await pause(500);}}
start();
}
</script>
</html>
"##;
