//! Array and object literals.

use super::Row;

pub static OBJECTS: &[Row] = &[
    // the script that docs/TOKENS.md, GRAMMAR.md and TREE.md go through
    Row {
        source: "let o = {};\no.a = 7\nprint(o.a);",
        tree: "0 1:9 object 0\n\
               1 1:1 let o@top0 0\n\
               2 2:1 name o@top0\n\
               3 2:1 member 2 .a write 0\n\
               4 2:7 number 7\n\
               5 2:1 assign Plain 3 4\n\
               6 2:1 expression 5\n\
               7 3:1 name print@global\n\
               8 3:7 name o@top0\n\
               9 3:7 member 8 .a read 1\n\
               10 3:1 call 7 [9]\n\
               11 3:1 expression 10\n\
               literal 0 1:9 definitions 0\n\
               site 0 2:2 write\n\
               site 1 3:8 read\n\
               script names 1 items [1 6 11]\n",
    },
    // a comma that no element stands directly before is a hole
    Row {
        source: "[, a,, b, ]; [[]];",
        tree: "0 1:4 name a@global\n\
               1 1:8 name b@global\n\
               2 1:1 array - 0 - 1\n\
               3 1:1 expression 2\n\
               4 1:15 array\n\
               5 1:14 array 4\n\
               6 1:14 expression 5\n\
               script names 0 items [3 6]\n",
    },
    // a property definition is no node, but its value, its computed name and its method are
    Row {
        source: "let b;\n({ a: 1, \"c\": 2, 0x10: 3, b, [b]: 4,\nd() {}, get e() {}, set f(g) {}, [b]() {} });",
        tree: "0 1:1 let b@top0 -\n\
               1 2:7 number 1\n\
               2 2:15 number 2\n\
               3 2:24 number 3\n\
               4 2:31 name b@top0\n\
               5 2:35 number 4\n\
               6 3:1 method 0\n\
               7 3:9 method 1\n\
               8 3:21 method 2\n\
               9 3:35 name b@top0\n\
               10 3:34 method 3\n\
               11 2:2 object 0, value a 1, value c 2, value 16 3, shorthand b@top0, value [4] 5, method d 6, get e 7, set f 8, method [9] 10\n\
               12 2:1 expression 11\n\
               function 0 3:1 parameters 0 this 0 names 0 items []\n\
               function 1 3:9 parameters 0 this 0 names 0 items []\n\
               function 2 3:21 parameters 1 this 0 names 1 items []\n\
               function 3 3:34 parameters 0 this 0 names 0 items []\n\
               literal 0 2:2 definitions 9\n\
               script names 1 items [0 12]\n",
    },
    // a written `__proto__` with a colon sets the prototype; a computed one, one alone and a method do not
    Row {
        source: "({ __proto__: null });\n({ \"\\u005f_proto__\": null, a: 1 });\n({ [\"__proto__\"]: null });\n({ __proto__, __proto__() {} });",
        tree: "0 1:15 null\n\
               1 1:2 object 0, prototype 0\n\
               2 1:1 expression 1\n\
               3 2:22 null\n\
               4 2:31 number 1\n\
               5 2:2 object 1, prototype 3, value a 4\n\
               6 2:1 expression 5\n\
               7 3:5 text \"__proto__\"\n\
               8 3:19 null\n\
               9 3:2 object 2, value [7] 8\n\
               10 3:1 expression 9\n\
               11 4:15 method 0\n\
               12 4:2 object 3, shorthand __proto__@global, method __proto__ 11\n\
               13 4:1 expression 12\n\
               function 0 4:15 parameters 0 this 0 names 0 items []\n\
               literal 0 1:2 definitions 1\n\
               literal 1 2:2 definitions 2\n\
               literal 2 3:2 definitions 1\n\
               literal 3 4:2 definitions 2\n\
               script names 0 items [2 6 10 13]\n",
    },
    // the name of a method is in no scope, its parameters are in its own
    Row {
        source: "let k; ({ m(a, b) { a; m; }, get [k]() { return k; }, set p(v) { v = 1; } });",
        tree: "0 1:1 let k@top0 -\n\
               1 1:21 name a@own0\n\
               2 1:21 expression 1\n\
               3 1:24 name m@global\n\
               4 1:24 expression 3\n\
               5 1:11 method 0\n\
               6 1:35 name k@top0\n\
               7 1:49 name k@top0\n\
               8 1:42 return 7\n\
               9 1:30 method 1\n\
               10 1:70 number 1\n\
               11 1:66 assign Plain v@own0 10\n\
               12 1:66 expression 11\n\
               13 1:55 method 2\n\
               14 1:9 object 0, method m 5, get [6] 9, set p 13\n\
               15 1:8 expression 14\n\
               function 0 1:11 parameters 2 this 0 names 2 items [2 4]\n\
               function 1 1:30 parameters 0 this 0 names 0 items [8]\n\
               function 2 1:55 parameters 1 this 0 names 1 items [12]\n\
               literal 0 1:9 definitions 3\n\
               script names 1 items [0 15]\n",
    },
    // a computed name stands in the scopes around its method
    Row {
        source: "{ let k; ({ [k]() {} }); }",
        tree: "0 1:3 let k@own0 -\n\
               1 1:14 name k@own0\n\
               2 1:13 method 0\n\
               3 1:11 object 0, method [1] 2\n\
               4 1:10 expression 3\n\
               5 1:1 block 1 [0 4]\n\
               function 0 1:13 parameters 0 this 0 names 0 items []\n\
               literal 0 1:11 definitions 1\n\
               script names 0 items [5]\n",
    },
];
