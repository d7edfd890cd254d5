//! What is known of functions, and their bodies.

use super::Row;

pub static FUNCTIONS: &[Row] = &[
    // `this.N = value` alone counts, each name once
    Row {
        source: "(function f(a, b) {\nthis.x = 1; this.x = a; (this).v = b;\nthis.z += 1; this[\"w\"] = 1; this.u++;\nf; });",
        tree: "0 2:1 this\n\
               1 2:1 member 0 .x write 0\n\
               2 2:10 number 1\n\
               3 2:1 assign Plain 1 2\n\
               4 2:1 expression 3\n\
               5 2:13 this\n\
               6 2:13 member 5 .x write 1\n\
               7 2:22 name a@own0\n\
               8 2:13 assign Plain 6 7\n\
               9 2:13 expression 8\n\
               10 2:26 this\n\
               11 2:25 member 10 .v write 2\n\
               12 2:36 name b@own1\n\
               13 2:25 assign Plain 11 12\n\
               14 2:25 expression 13\n\
               15 3:1 this\n\
               16 3:1 member 15 .z read 3 write 4\n\
               17 3:11 number 1\n\
               18 3:1 assign Add 16 17\n\
               19 3:1 expression 18\n\
               20 3:14 this\n\
               21 3:19 text \"w\"\n\
               22 3:14 index 20 21 write 5\n\
               23 3:26 number 1\n\
               24 3:14 assign Plain 22 23\n\
               25 3:14 expression 24\n\
               26 3:29 this\n\
               27 3:29 member 26 .u read 6 write 7\n\
               28 3:29 increment postfix 27\n\
               29 3:29 expression 28\n\
               30 4:1 name f@callee\n\
               31 4:1 expression 30\n\
               32 1:2 function 0\n\
               33 1:1 expression 32\n\
               function 0 1:2 parameters 2 this 2 constructor name f names 2 items [4 9 14 19 25 29 31]\n\
               site 0 2:5 write\n\
               site 1 2:17 write\n\
               site 2 2:31 write\n\
               site 3 3:5 read\n\
               site 4 3:5 write\n\
               site 5 3:18 write\n\
               site 6 3:33 read\n\
               site 7 3:33 write\n\
               script names 0 items [33]\n",
    },
    // the functions in a body are not its own code, but the computed name of a method is
    Row {
        source: "function C() {\nthis.a = function () { this.b = 1; };\nreturn { [this.c = 2]() { this.d = 3; } };\n}",
        tree: "0 2:1 this\n\
               1 2:1 member 0 .a write 0\n\
               2 2:24 this\n\
               3 2:24 member 2 .b write 1\n\
               4 2:33 number 1\n\
               5 2:24 assign Plain 3 4\n\
               6 2:24 expression 5\n\
               7 2:10 function 0\n\
               8 2:1 assign Plain 1 7\n\
               9 2:1 expression 8\n\
               10 3:11 this\n\
               11 3:11 member 10 .c write 2\n\
               12 3:20 number 2\n\
               13 3:11 assign Plain 11 12\n\
               14 3:27 this\n\
               15 3:27 member 14 .d write 3\n\
               16 3:36 number 3\n\
               17 3:27 assign Plain 15 16\n\
               18 3:27 expression 17\n\
               19 3:10 method 1\n\
               20 3:8 object 0, method [13] 19\n\
               21 3:1 return 20\n\
               function 0 2:10 parameters 0 this 1 constructor names 0 items [6]\n\
               function 1 3:10 parameters 0 this 1 names 0 items [18]\n\
               function 2 1:1 parameters 0 this 2 constructor name C names 0 items [9 21]\n\
               literal 0 3:8 definitions 1\n\
               site 0 2:5 write\n\
               site 1 2:28 write\n\
               site 2 3:15 write\n\
               site 3 3:31 write\n\
               script names 0 items [] declares C@global 2 last\n",
    },
    // strict by the directive of the script
    Row {
        source: "\"use strict\"; function f() { return function () {}; }",
        tree: "0 1:1 text \"use strict\"\n\
               1 1:1 expression 0\n\
               2 1:37 function 0\n\
               3 1:30 return 2\n\
               function 0 1:37 parameters 0 this 0 constructor strict names 0 items []\n\
               function 1 1:15 parameters 0 this 0 constructor strict name f names 0 items [3]\n\
               script strict names 0 items [1] declares f@global 1 last\n",
    },
    // neither in parentheses nor by an escape
    Row {
        source: "(\"use strict\");",
        tree: "0 1:2 text \"use strict\"\n\
               1 1:1 expression 0\n\
               script names 0 items [1]\n",
    },
    Row {
        source: "'use\\x20strict';",
        tree: "0 1:1 text \"use strict\"\n\
               1 1:1 expression 0\n\
               script names 0 items [1]\n",
    },
    // strict by a directive of its own, which may be the second one, and has no parentheses, no escapes and no other statement before it
    Row {
        source: "function a() { \"x\"; 'use strict'; ({ m() {} }); }\nfunction b() { (\"use strict\"); }\nfunction c() { 1; \"use strict\"; }\nfunction d() { \"use\\x20strict\"; }",
        tree: "0 1:16 text \"x\"\n\
               1 1:16 expression 0\n\
               2 1:21 text \"use strict\"\n\
               3 1:21 expression 2\n\
               4 1:38 method 0\n\
               5 1:36 object 0, method m 4\n\
               6 1:35 expression 5\n\
               7 2:17 text \"use strict\"\n\
               8 2:16 expression 7\n\
               9 3:16 number 1\n\
               10 3:16 expression 9\n\
               11 3:19 text \"use strict\"\n\
               12 3:19 expression 11\n\
               13 4:16 text \"use strict\"\n\
               14 4:16 expression 13\n\
               function 0 1:38 parameters 0 this 0 strict names 0 items []\n\
               function 1 1:1 parameters 0 this 0 constructor strict name a names 0 items [1 3 6]\n\
               function 2 2:1 parameters 0 this 0 constructor name b names 0 items [8]\n\
               function 3 3:1 parameters 0 this 0 constructor name c names 0 items [10 12]\n\
               function 4 4:1 parameters 0 this 0 constructor name d names 0 items [14]\n\
               literal 0 1:36 definitions 1\n\
               script names 0 items [] declares a@global 1 last declares b@global 2 last declares c@global 3 last declares d@global 4 last\n",
    },
    // `arguments` is a name of the function whose own code uses it as one; outside of functions it is a global one
    Row {
        source: "function a() { return function () { arguments; }; }\nfunction b() { return { arguments }; }\nfunction c() { return { arguments: this.arguments }; }\nfunction d() { return { get [arguments]() {} }; }\narguments;",
        tree: "0 1:37 name arguments@arguments\n\
               1 1:37 expression 0\n\
               2 1:23 function 0\n\
               3 1:16 return 2\n\
               4 2:23 object 0, shorthand arguments@arguments\n\
               5 2:16 return 4\n\
               6 3:36 this\n\
               7 3:36 member 6 .arguments read 0\n\
               8 3:23 object 1, value arguments 7\n\
               9 3:16 return 8\n\
               10 4:30 name arguments@arguments\n\
               11 4:25 method 4\n\
               12 4:23 object 2, get [10] 11\n\
               13 4:16 return 12\n\
               14 5:1 name arguments@global\n\
               15 5:1 expression 14\n\
               function 0 1:23 parameters 0 this 0 constructor arguments names 0 items [1]\n\
               function 1 1:1 parameters 0 this 0 constructor name a names 0 items [3]\n\
               function 2 2:1 parameters 0 this 0 constructor arguments name b names 0 items [5]\n\
               function 3 3:1 parameters 0 this 0 constructor name c names 0 items [9]\n\
               function 4 4:25 parameters 0 this 0 names 0 items []\n\
               function 5 4:1 parameters 0 this 0 constructor arguments name d names 0 items [13]\n\
               literal 0 2:23 definitions 1\n\
               literal 1 3:23 definitions 1\n\
               literal 2 4:23 definitions 1\n\
               site 0 3:40 read\n\
               script names 0 items [15] declares a@global 1 last declares b@global 2 last declares c@global 3 last declares d@global 5 last\n",
    },
    // of the declared functions of one name the last one is made
    Row {
        source: "function f() {} function g() {} function f(a) {}",
        tree: "function 0 1:1 parameters 0 this 0 constructor name f names 0 items []\n\
               function 1 1:17 parameters 0 this 0 constructor name g names 0 items []\n\
               function 2 1:33 parameters 1 this 0 constructor name f names 1 items []\n\
               script names 0 items [] declares f@global 0 declares g@global 1 last declares f@global 2 last\n",
    },
    // the name of a function expression is its own, unless it binds that name itself
    Row {
        source: "(function f() { f = 1; f; }); (function g(g) { g; }); (function h() { let h; h; });",
        tree: "0 1:21 number 1\n\
               1 1:17 assign Plain f@callee 0\n\
               2 1:17 expression 1\n\
               3 1:24 name f@callee\n\
               4 1:24 expression 3\n\
               5 1:2 function 0\n\
               6 1:1 expression 5\n\
               7 1:48 name g@own0\n\
               8 1:48 expression 7\n\
               9 1:32 function 1\n\
               10 1:31 expression 9\n\
               11 1:71 let h@own0 -\n\
               12 1:78 name h@own0\n\
               13 1:78 expression 12\n\
               14 1:56 function 2\n\
               15 1:55 expression 14\n\
               function 0 1:2 parameters 0 this 0 constructor name f names 0 items [2 4]\n\
               function 1 1:32 parameters 1 this 0 constructor name g names 1 items [8]\n\
               function 2 1:56 parameters 0 this 0 constructor name h names 1 items [11 13]\n\
               script names 0 items [6 10 15]\n",
    },
];
