//! The parts of a page that are the same for each run.

/// Up to the title.
pub(crate) const HEAD: &str = r#"<!doctype html><html lang="en"><head><meta charset="utf-8">
<meta name="viewport" content="width=device-width,initial-scale=1">"#;

/// From the title to the run.
pub(crate) const BODY: &str = r##"<style>
:root{--b:#fff;--t:#222;--q:#666;--g:#e4e4e4;--z:#8899aa;--e:#f4f4f4;--u:221,0,0;color-scheme:light dark}
@media(prefers-color-scheme:dark){:root{--b:#181818;--t:#ddd;--q:#aaa;--g:#333;--z:#778899;--e:#262626;--u:255,68,68}}
body{margin:8px 10px;background:var(--b);color:var(--t);font:14px sans-serif}
h1{font-size:18px;margin:0 0 6px;overflow-wrap:anywhere}
#bar{display:flex;flex-wrap:wrap;gap:6px 14px;align-items:center;margin-bottom:4px}
#bar button{font:inherit;padding:1px 9px}#bar input{font:inherit;width:9em}
#key{display:flex;flex-wrap:wrap;gap:2px 14px;color:var(--q);font-size:12px;margin:4px 0}
#key i{display:inline-block;width:22px;height:10px;margin-right:5px}
canvas{display:block;touch-action:pan-y;cursor:crosshair}
#tip{position:fixed;pointer-events:none;background:var(--e);border:1px solid var(--q);font-size:12px;padding:4px 6px;display:none}
#tip table{border-collapse:collapse}#tip td,#tip th{padding:0 6px;text-align:right;font-weight:normal}#tip th{color:var(--q)}
</style></head><body>"##;

/// The program that draws the run.
pub(crate) const SCRIPT: &str = r##"
'use strict';
const C=['#4c78a8','#e39b3a','#54a24b','#a66f9c','#5fb0ac','#c9a94f','#7d62b0','#79b4e0','#8fbf5a','#9c755f','#bf94d6','#5d7186'];
const steps=(s,k)=>{const w=Math.max(1,D.last-D.first)/D.cols;for(let i=0;i<s.length;i+=3){s[i]*=w;s[i+1]*=w;s[i+2]*=k}};
for(const c of D.caps){steps(c.u,.001);steps(c.f,.25)}
for(const s of D.sides)steps(s.v,1e6);
if(!D.told)for(const p of D.pairs)steps(p.r,1e6);
const make=(t,a,p)=>{const e=Object.assign(document.createElement(t),a);(p||document.body).append(e);return e};
const bar=make('div',{id:'bar'}),T=Math.max(1,D.last-D.first);
const word=make('span',{id:'word'},bar);
const acts=[['+','zoom in',()=>zoom(.5)],['−','zoom out',()=>zoom(2)],['←','earlier',()=>move(-.25)],['→','later',()=>move(.25)],
  ['all','all of the time',()=>{a=0;b=T;draw()}]];
for(const[textContent,title,onclick]of acts)make('button',{textContent,title,onclick},bar);
const label=make('label',{textContent:'peers '},bar),peers=make('input',{placeholder:'all: or 1,2,5'},label);
peers.oninput=()=>{rows();draw()};
const key=make('div',{id:'key'});
const keys=[['var(--z)','use of a cap'],['rgb(var(--u))','full (paler: for a part of the time)'],['dotted','waits'],
  ['hatch','stalls'],['line','in latency, | arrives, × is dropped']];
for(const[k,t]of keys){const s=make('span',{},key),i=make('i',{},s);make('span',{textContent:t},s);
  if(k=='dotted')i.style.cssText+='height:0;border-top:2px dotted #8a7d6c;margin-bottom:4px';
  else if(k=='line')i.style.cssText+='height:0;border-top:2px solid #888;margin-bottom:4px';
  else i.style.background=k=='hatch'?'repeating-linear-gradient(135deg,#777 0 1px,transparent 1px 4px)':k}
make('span',{textContent:'a bar of a pair: what it sends, and its height the rate; each pair has a colour'},key);
const cv=make('canvas',{}),g=cv.getContext('2d'),tip=make('div',{id:'tip'});
const unit=(v,us,whole=Math.round)=>{let u=us[0];for(const x of us)if(v>=x[0])u=x;return whole(v*1e3/u[0])/1e3+' '+u[1]};
const times=[[1,'ns'],[1e3,'µs'],[1e6,'ms'],[1e9,'s']],time=v=>v==0?'0 s':(v<0?'−':'')+unit(Math.abs(v),times,Math.floor);
const size=v=>unit(v,[[1,'B'],[1e3,'kB'],[1e6,'MB'],[1e9,'GB']]);
const css=n=>getComputedStyle(document.documentElement).getPropertyValue(n).trim();
let a=0,b=T,R=[],W=0,L=110,H=0,hover=null;
function rows(){
  const want=peers.value.split(/[ ,]+/).filter(x=>x),has=(...p)=>!want.length||p.some(x=>want.includes(x));
  R=[];
  const caps=D.caps.filter(c=>has(c.a,c.b)),pairs=D.pairs.filter(p=>has(p.a,p.b)),ends=new Map();
  for(const x of D.sides)if(has(x.a)){const i=+(x.k=='r');
    ends.set(x.k+x.a,{n:x.a+[' sends',' receives'][i],k:'peer',o:[x.a,i],s:[[x,x.v]]})}
  if(!D.sides.length)for(const p of pairs){
    if(has(p.a)){const k='s'+p.a;ends.has(k)||ends.set(k,{n:p.a+' sends',k:'peer',o:[p.a,0],s:[]});ends.get(k).s.push([p,p.r],[p,p.x])}
    if(has(p.b)&&p.a!=p.b&&p.r.length){const k='r'+p.b;
      ends.has(k)||ends.set(k,{n:p.b+' receives',k:'peer',o:[p.b,1],s:[]});ends.get(k).s.push([p,p.r])}
  }
  const sides=[...ends.values()].sort((x,y)=>x.o[0]-y.o[0]||x.o[1]-y.o[1]);
  const high=(n,all,least,most)=>Math.min(most,Math.max(least,Math.floor(all/Math.max(1,n))));
  let y=24;
  const part=(name,list,h)=>{if(!list.length)return;R.push({k:'part',n:name,y,h:22});y+=22;
    for(const r of list){R.push({...r,y,h});y+=h}y+=4};
  const end={s:' sends',r:' receives'};
  part('Use of each cap',caps.map(c=>({k:'cap',n:c.k=='l'?c.a+' → '+c.b:c.a+end[c.k],c})),high(caps.length,300,8,30));
  part('What each peer sends and receives',sides,high(sides.length,400,7,44));
  part('Messages of each pair',pairs.map(p=>({k:'pair',n:p.a+' → '+p.b,p})),high(pairs.length,900,4,44));
  H=y+24;
}
function fit(){
  W=Math.max(240,document.documentElement.clientWidth-20);const d=window.devicePixelRatio||1;
  L=W<600?84:110;cv.style.width=W+'px';cv.style.height=H+'px';cv.width=W*d;cv.height=H*d;g.setTransform(d,0,0,d,0,0);
}
const X=t=>L+(t-a)/(b-a)*(W-L-4),back=x=>a+(x-L)/(W-L-4)*(b-a);
function means(list,out,n){
  const w=(b-a)/n;
  for(let i=0;i<list.length;i+=3){
    const f=Math.max(list[i],a),t=Math.min(list[i+1],b),v=list[i+2];
    if(t<=f)continue;
    const c0=Math.floor((f-a)/w),c1=Math.min(n-1,Math.ceil((t-a)/w)-1);
    for(let c=c0;c<=c1;c++)out[c]+=v*(Math.min(t,a+(c+1)*w)-Math.max(f,a+c*w))/w;
  }
  return out;
}
const peak=v=>{let m=0;for(const x of v)if(x>m)m=x;return m};
function area(v,base,y,h,full,colour){
  g.fillStyle=colour;const n=v.length,w=(W-L-4)/n;
  for(let c=0;c<n;c++)if(v[c]>0){const s=c;while(c+1<n&&v[c+1]==v[s]&&(!base||base[c+1]==base[s]))c++;
    const lo=base?base[s]/full*h:0,hi=Math.min(h,Math.max(1,(v[s]+(base?base[s]:0))/full*h));
    g.fillRect(L+s*w,y+h-hi,(c+1-s)*w,Math.max(.5,hi-lo))}
}
function hatch(x,y,w,h){
  g.save();g.beginPath();g.rect(x,y,w,h);g.clip();g.strokeStyle=css('--q');g.lineWidth=1;g.beginPath();
  for(let i=-h;i<w;i+=5){g.moveTo(x+i,y+h);g.lineTo(x+i+h,y)}g.stroke();g.restore();
}
function pair(p,y,h,full,n){
  const m=Math.min(6,Math.max(1,h/6)),t=css('--t'),q=css('--q');
  area(means(p.x,means(p.r,new Float64Array(n),n),n),null,y+m,h-2*m-1,full,C[p.c]);
  for(const s of[p.r,p.x])for(let i=0;i<s.length;i+=3)if(s[i+2]==0){const f=X(Math.max(a,s[i])),e=X(Math.min(b,s[i+1]));
    if(e>f)hatch(f,y+m,Math.max(1,e-f),h-2*m-1)}
  for(let i=0;i<p.m.length;i+=6){
    const[,,q0,s0,d0,r0]=p.m.slice(i,i+6),late=s0===null?b:s0;
    if(late>q0&&late>a&&q0<b){g.strokeStyle='#8a7d6c';g.lineWidth=1;g.setLineDash([2,2]);g.beginPath();
      g.moveTo(X(Math.max(a,q0)),y+h-m/2);g.lineTo(X(Math.min(b,late)),y+h-m/2);g.stroke();g.setLineDash([])}
    if(d0===null)continue;
    if(s0===d0&&d0>=a&&d0<=b){g.fillStyle=C[p.c];g.fillRect(X(d0),y+m,1,h-2*m-1)}
    if(r0===null){if(d0>=a&&d0<=b){g.strokeStyle=t;g.lineWidth=1.2;const x=X(d0),r=Math.min(4,h/3);g.beginPath();
      g.moveTo(x-r,y);g.lineTo(x+r,y+2*r);g.moveTo(x+r,y);g.lineTo(x-r,y+2*r);g.stroke()}continue}
    if(r0>=a&&d0<=b){g.strokeStyle=q;g.lineWidth=1;g.beginPath();
      g.moveTo(X(Math.max(a,d0)),y+m/2);g.lineTo(X(Math.min(b,r0)),y+m/2);g.stroke();
      if(r0<=b){g.fillStyle=t;g.fillRect(X(r0)-.7,y,1.4,Math.min(h,2*m+1))}}
  }
}
function axis(){
  const most=Math.max(1,Math.floor((W-L)/110)),least=(b-a)/most;let s=1;
  while(s<least)s*=s.toString()[0]=='2'?2.5:2;
  let u=times[0];for(const x of times)if(D.first+b>=x[0])u=x;
  g.textAlign='center';g.font='12px sans-serif';
  for(let t=Math.ceil((D.first+a)/s)*s;t<=D.first+b;t+=s){const x=X(t-D.first);
    g.fillStyle=css('--g');g.fillRect(x,20,1,H-40);g.fillStyle=css('--q');
    const w=+(t/u[0]).toPrecision(12)+' '+u[1],half=g.measureText(w).width/2,at=Math.min(W-half-1,x);
    g.fillText(w,at,14);g.fillText(w,at,H-8)}
}
function draw(){
  fit();g.fillStyle=css('--b');g.fillRect(0,0,W,H);axis();
  const n=Math.max(50,Math.floor(W-L-4)),full={peer:1,pair:1};
  for(const r of R){
    if(r.k=='peer'){r.v=r.s.map(([p,s])=>[p,means(s,new Float64Array(n),n)]);r.t=new Float64Array(n);
      for(const[,v]of r.v)for(let c=0;c<n;c++)r.t[c]+=v[c];full.peer=Math.max(full.peer,peak(r.t))}
    if(r.k=='pair')full.pair=Math.max(full.pair,peak(means(r.p.x,means(r.p.r,new Float64Array(n),n),n)));
  }
  let named=-99;
  for(const r of R){
    g.textAlign='left';
    if(r.k=='part'){g.fillStyle=css('--t');g.font='bold 12px sans-serif';named=-99;
      const f={'U':'cap','W':'peer','M':'pair'}[r.n[0]];
      let s=r.n+(f=='cap'?' (full height: all of it)':' (full height: '+size(full[f]/1e6)+'/s)');
      if(g.measureText(s).width>W-4)s=r.n;
      g.fillText(s,Math.max(0,Math.min(L,W-4-g.measureText(s).width)),r.y+15);continue}
    g.fillStyle=css('--g');g.fillRect(L,r.y+r.h-1,W-L-4,1);
    if(r.k=='cap'){area(means(r.c.u,new Float64Array(n),n),null,r.y+1,r.h-3,1,css('--z'));
      const v=means(r.c.f,new Float64Array(n),n),w=(W-L-4)/n;
      for(let c=0;c<n;c++)if(v[c]>.001){const s=c;while(c+1<n&&Math.abs(v[c+1]-v[s])<.01)c++;
        g.fillStyle='rgba('+css('--u')+','+Math.min(1,v[s])+')';g.fillRect(L+s*w,r.y+1,(c+1-s)*w,r.h-3)}}
    if(r.k=='peer'){const base=new Float64Array(n);
      if(D.sides.length||r.v.length>40)area(r.t,null,r.y+1,r.h-3,full.peer,css('--z'));
      else for(const[p,v]of r.v){area(v,base,r.y+1,r.h-3,full.peer,C[p.c]);for(let c=0;c<n;c++)base[c]+=v[c]}}
    if(r.k=='pair')pair(r.p,r.y,r.h,full.pair,n);
    if(r.y-named>=12){g.font=(r.h<14?10:12)+'px sans-serif';g.fillStyle=css('--t');g.textAlign='right';
      g.fillText(r.n,L-6,r.y+r.h/2+4,L-8);named=r.y}
  }
  word.textContent=D.pairs.length+(D.pairs.length==1?' pair, ':' pairs, ')+time(D.first+a)+' to '+time(D.first+b)
    +(D.refused?', refused calls: '+D.refused:'')+(D.more?', '+D.more+' more that send least are left out':'')
    +(D.idle?', '+D.idle+' in which nothing happens':'');
}
function zoom(f,at){const m=at===undefined?(a+b)/2:at,w=Math.min(T,Math.max(Math.min(T,10),(b-a)*f));
  a=Math.max(0,Math.min(T-w,m-(m-a)*w/(b-a)));b=a+w;draw()}
function move(f){const w=b-a;a=Math.max(0,Math.min(T-w,a+f*w));b=a+w;draw()}
cv.addEventListener('wheel',e=>{if(!e.ctrlKey&&!e.shiftKey&&!e.altKey)return;e.preventDefault();
  zoom((e.deltaY||e.deltaX)>0?1.25:.8,back(e.offsetX))},{passive:false});
let from=null;
cv.onpointerdown=e=>{from=[e.offsetX,a];cv.setPointerCapture(e.pointerId)};
cv.onpointerup=()=>{from=null};
cv.ondblclick=e=>zoom(.5,back(e.offsetX));
cv.onpointermove=e=>{
  if(from){const w=b-a;a=Math.max(0,Math.min(T-w,from[1]-(e.offsetX-from[0])/(W-L-4)*w));b=a+w;draw();return}
  show(e.offsetX,e.offsetY,e.clientX,e.clientY);
};
cv.onpointerleave=()=>{tip.style.display='none'};
function show(x,y,cx,cy){
  const r=R.find(r=>r.k!='part'&&y>=r.y&&y<r.y+r.h),t=back(x);tip.textContent='';
  if(!r||x<L){tip.style.display='none';return}
  make('div',{textContent:r.n+' at '+time(D.first+t)},tip);
  if(r.k=='cap'){let v=null;for(let i=0;i<r.c.v.length;i+=2)if(r.c.v[i]<=t)v=r.c.v[i+1];
    let u=0;for(let i=0;i<r.c.u.length;i+=3)if(r.c.u[i]<=t&&t<r.c.u[i+1])u=r.c.u[i+2];
    make('div',{textContent:v===null?'no cap':'cap '+size(v)+'/s, used '+(u*100).toFixed(1)+' %'},tip)}
  const list=[];
  const told=r.k=='pair'?[r.p]:r.k=='peer'&&!D.sides.length?[...new Set(r.s.map(s=>s[0]))]:[];
  for(const p of told)for(let i=0;i<p.m.length;i+=6){
    const m=p.m.slice(i,i+6),end=m[5]??m[4]??T,slack=(b-a)/W*3;
    if(m[2]-slack<=t&&end+slack>=t)list.push([p,m])}
  if(list.length){const tb=make('table',{},tip),h=make('tr',{},tb);
    for(const n of['pair','channel','size','enqueued','starts','done','arrives'])make('th',{textContent:n},h);
    for(const[p,m]of list.slice(0,12)){const l=make('tr',{},tb),at=v=>v===null?'–':time(D.first+v);
      const last=m[5]===null&&m[4]!==null?'dropped':at(m[5]);
      for(const v of[p.a+' → '+p.b,m[0],size(m[1]),at(m[2]),D.exact?at(m[3]):'–',at(m[4]),last])make('td',{textContent:v},l)}
    if(list.length>12)make('div',{textContent:'and '+(list.length-12)+' more'},tip)}
  tip.style.display='block';
  const w=tip.offsetWidth,k=tip.offsetHeight;
  tip.style.left=Math.max(2,Math.min(innerWidth-w-4,cx+14))+'px';tip.style.top=Math.max(2,cy+18+k>innerHeight?cy-k-12:cy+18)+'px';
}
window.onresize=draw;matchMedia('(prefers-color-scheme:dark)').onchange=draw;
rows();draw();
"##;
