//! What names are bound to.

use super::Row;

pub static SCOPES: &[Row] = &[
    // the script's names are cells of its own; those of its blocks have places from 0, an inner block's after an outer one's
    Row {
        source: "let a; const b = a;\n{ let c = b; { const d = c; d; } let e; e; }\n{ let f; f; }",
        tree: "0 1:1 let a@top0 -\n\
               1 1:18 name a@top0\n\
               2 1:8 const b@top1c 1\n\
               3 2:11 name b@top1c\n\
               4 2:3 let c@own0 3\n\
               5 2:26 name c@own0\n\
               6 2:16 const d@own2c 5\n\
               7 2:29 name d@own2c\n\
               8 2:29 expression 7\n\
               9 2:14 block 1 [6 8]\n\
               10 2:34 let e@own1 -\n\
               11 2:41 name e@own1\n\
               12 2:41 expression 11\n\
               13 2:1 block 2 [4 9 10 12]\n\
               14 3:3 let f@own0 -\n\
               15 3:10 name f@own0\n\
               16 3:10 expression 15\n\
               17 3:1 block 1 [14 16]\n\
               script names 2 items [0 2 13 17]\n",
    },
    // a function's names: its parameters, then its declared functions that are no parameters, then its lexical names
    Row {
        source: "function o(a, f) { let x; function f() {}\nfunction g() {} function f() {} const y = x; y; g; f; a; }",
        tree: "0 1:20 let x@own3 -\n\
               1 2:43 name x@own3\n\
               2 2:33 const y@own4c 1\n\
               3 2:46 name y@own4c\n\
               4 2:46 expression 3\n\
               5 2:49 name g@own2\n\
               6 2:49 expression 5\n\
               7 2:52 name f@own1\n\
               8 2:52 expression 7\n\
               9 2:55 name a@own0\n\
               10 2:55 expression 9\n\
               function 0 1:27 parameters 0 this 0 constructor name f names 0 items []\n\
               function 1 2:1 parameters 0 this 0 constructor name g names 0 items []\n\
               function 2 2:17 parameters 0 this 0 constructor name f names 0 items []\n\
               function 3 1:1 parameters 2 this 0 constructor name o names 5 items [0 2 4 6 8 10] declares f@own1 0 declares g@own2 1 last declares f@own1 2 last\n\
               script names 0 items [] declares o@global 3 last\n",
    },
    // the blocks, heads and catches of a function go on after its own names
    Row {
        source: "function f(p) {\nlet q; try { p; } catch (e) { let r; { let s; s; r; e; q; } }\nfor (const t = 0; ; ) { t; } }",
        tree: "0 2:1 let q@own1 -\n\
               1 2:14 name p@own0\n\
               2 2:14 expression 1\n\
               3 2:31 let r@own3 -\n\
               4 2:40 let s@own4 -\n\
               5 2:47 name s@own4\n\
               6 2:47 expression 5\n\
               7 2:50 name r@own3\n\
               8 2:50 expression 7\n\
               9 2:53 name e@own2\n\
               10 2:53 expression 9\n\
               11 2:56 name q@own1\n\
               12 2:56 expression 11\n\
               13 2:38 block 1 [4 6 8 10 12]\n\
               14 2:8 try 0 [2] catch e@own2 1 [3 13]\n\
               15 3:16 number 0\n\
               16 3:6 const t@own2c 15\n\
               17 3:25 name t@own2c\n\
               18 3:25 expression 17\n\
               19 3:23 block 0 [18]\n\
               20 3:1 for 1 16 - - 19\n\
               function 0 1:1 parameters 1 this 0 constructor name f names 2 items [0 14 20]\n\
               script names 0 items [] declares f@global 0 last\n",
    },
    // a function has the script's names, and places of its own from 0 again
    Row {
        source: "let a; { let b; (function (c) { a; c; { let d; d; } }); }",
        tree: "0 1:1 let a@top0 -\n\
               1 1:10 let b@own0 -\n\
               2 1:33 name a@top0\n\
               3 1:33 expression 2\n\
               4 1:36 name c@own0\n\
               5 1:36 expression 4\n\
               6 1:41 let d@own1 -\n\
               7 1:48 name d@own1\n\
               8 1:48 expression 7\n\
               9 1:39 block 1 [6 8]\n\
               10 1:18 function 0\n\
               11 1:17 expression 10\n\
               12 1:8 block 1 [1 11]\n\
               function 0 1:18 parameters 1 this 0 constructor names 1 items [3 5 9]\n\
               script names 1 items [0 12]\n",
    },
    // one script with much of this
    Row {
        source: "let g={k:1}; let m=Object.create(g); let o=Object.create(m); let i=0; while(i<4){ print(o.k); if(i===1){ m.k=2; } i=i+1; }",
        tree: "0 1:10 number 1\n\
               1 1:7 object 0, value k 0\n\
               2 1:1 let g@top0 1\n\
               3 1:20 name Object@global\n\
               4 1:20 member 3 .create read 0\n\
               5 1:34 name g@top0\n\
               6 1:20 call 4 [5]\n\
               7 1:14 let m@top1 6\n\
               8 1:44 name Object@global\n\
               9 1:44 member 8 .create read 1\n\
               10 1:58 name m@top1\n\
               11 1:44 call 9 [10]\n\
               12 1:38 let o@top2 11\n\
               13 1:68 number 0\n\
               14 1:62 let i@top3 13\n\
               15 1:77 name i@top3\n\
               16 1:79 number 4\n\
               17 1:77 binary Less 15 16\n\
               18 1:83 name print@global\n\
               19 1:89 name o@top2\n\
               20 1:89 member 19 .k read 2\n\
               21 1:83 call 18 [20]\n\
               22 1:83 expression 21\n\
               23 1:98 name i@top3\n\
               24 1:102 number 1\n\
               25 1:98 binary StrictlyEqual 23 24\n\
               26 1:106 name m@top1\n\
               27 1:106 member 26 .k write 3\n\
               28 1:110 number 2\n\
               29 1:106 assign Plain 27 28\n\
               30 1:106 expression 29\n\
               31 1:104 block 0 [30]\n\
               32 1:95 if 25 31 -\n\
               33 1:117 name i@top3\n\
               34 1:119 number 1\n\
               35 1:117 binary Add 33 34\n\
               36 1:115 assign Plain i@top3 35\n\
               37 1:115 expression 36\n\
               38 1:81 block 0 [22 32 37]\n\
               39 1:71 while 17 38\n\
               literal 0 1:7 definitions 1\n\
               site 0 1:26 read\n\
               site 1 1:50 read\n\
               site 2 1:90 read\n\
               site 3 1:107 write\n\
               script names 4 items [2 7 12 14 39]\n",
    },
];
