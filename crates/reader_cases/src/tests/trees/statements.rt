//! Statements.

use super::Row;

pub static STATEMENTS: &[Row] = &[
    Row {
        source: "",
        tree: "script names 0 items []\n",
    },
    Row {
        source: "while (a) { if (b) break; else continue; } if (c) ;",
        tree: "0 1:8 name a@global\n\
               1 1:17 name b@global\n\
               2 1:20 break\n\
               3 1:32 continue\n\
               4 1:13 if 1 2 3\n\
               5 1:11 block 0 [4]\n\
               6 1:1 while 0 5\n\
               7 1:48 name c@global\n\
               8 1:51 empty\n\
               9 1:44 if 7 8 -\n\
               script names 0 items [6 9]\n",
    },
    // the names of a head are in force in all of the loop
    Row {
        source: "for (let i = 0, n = 9; i < n; i++) { let i = 1; i; }\nfor (;;) break;\nfor (a = 1; ; ) continue;",
        tree: "0 1:14 number 0\n\
               1 1:21 number 9\n\
               2 1:6 let i@own0 0, n@own1 1\n\
               3 1:24 name i@own0\n\
               4 1:28 name n@own1\n\
               5 1:24 binary Less 3 4\n\
               6 1:31 increment postfix i@own0\n\
               7 1:46 number 1\n\
               8 1:38 let i@own2 7\n\
               9 1:49 name i@own2\n\
               10 1:49 expression 9\n\
               11 1:36 block 1 [8 10]\n\
               12 1:1 for 2 2 5 6 11\n\
               13 2:10 break\n\
               14 2:1 for 0 - - - 13\n\
               15 3:10 number 1\n\
               16 3:6 assign Plain a@global 15\n\
               17 3:17 continue\n\
               18 3:1 for 0 16 - - 17\n\
               script names 0 items [12 14 18]\n",
    },
    // a catch has a scope for its parameter, and its block one of its own
    Row {
        source: "try { throw a; } catch (e) { let x = e; x; } finally { b; }\ntry { let y; } catch { let z; z; }\ntry { } finally { }",
        tree: "0 1:13 name a@global\n\
               1 1:7 throw 0\n\
               2 1:38 name e@own0\n\
               3 1:30 let x@own1 2\n\
               4 1:41 name x@own1\n\
               5 1:41 expression 4\n\
               6 1:56 name b@global\n\
               7 1:56 expression 6\n\
               8 1:1 try 0 [1] catch e@own0 1 [3 5] finally 0 [7]\n\
               9 2:7 let y@own0 -\n\
               10 2:24 let z@own0 -\n\
               11 2:31 name z@own0\n\
               12 2:31 expression 11\n\
               13 2:1 try 1 [9] catch 1 [10 12]\n\
               14 3:1 try 0 [] finally 0 []\n\
               script names 0 items [8 13 14]\n",
    },
    // semicolons that are put in: `return` ends at its line
    Row {
        source: "let a = 1\nlet b = 2\nprint(a\n+ b)\nfunction f(){ return\n7; } print(f())",
        tree: "0 1:9 number 1\n\
               1 1:1 let a@top0 0\n\
               2 2:9 number 2\n\
               3 2:1 let b@top1 2\n\
               4 3:1 name print@global\n\
               5 3:7 name a@top0\n\
               6 4:3 name b@top1\n\
               7 3:7 binary Add 5 6\n\
               8 3:1 call 4 [7]\n\
               9 3:1 expression 8\n\
               10 5:15 return -\n\
               11 6:1 number 7\n\
               12 6:1 expression 11\n\
               13 6:6 name print@global\n\
               14 6:12 name f@global\n\
               15 6:12 call 14 []\n\
               16 6:6 call 13 [15]\n\
               17 6:6 expression 16\n\
               function 0 5:1 parameters 0 this 0 constructor name f names 0 items [10 12]\n\
               script names 2 items [1 3 9 17] declares f@global 0 last\n",
    },
];
