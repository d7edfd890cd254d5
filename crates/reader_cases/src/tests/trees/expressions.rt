//! Primary expressions, operators and accesses.

use super::Row;

pub static EXPRESSIONS: &[Row] = &[
    // each primary expression that stands for itself
    Row {
        source: "this; null; true; false; 7; 0x10; \"ab\"; x;",
        tree: "0 1:1 this\n\
               1 1:1 expression 0\n\
               2 1:7 null\n\
               3 1:7 expression 2\n\
               4 1:13 true\n\
               5 1:13 expression 4\n\
               6 1:19 false\n\
               7 1:19 expression 6\n\
               8 1:26 number 7\n\
               9 1:26 expression 8\n\
               10 1:29 number 16\n\
               11 1:29 expression 10\n\
               12 1:35 text \"ab\"\n\
               13 1:35 expression 12\n\
               14 1:41 name x@global\n\
               15 1:41 expression 14\n\
               script names 0 items [1 3 5 7 9 11 13 15]\n",
    },
    // parentheses are no nodes, and a list with commas is one node
    Row {
        source: "((a)).b; (1, (2, 3));\na, b, c; (a, b), c;",
        tree: "0 1:3 name a@global\n\
               1 1:1 member 0 .b read 0\n\
               2 1:1 expression 1\n\
               3 1:11 number 1\n\
               4 1:15 number 2\n\
               5 1:18 number 3\n\
               6 1:15 comma [4 5]\n\
               7 1:11 comma [3 6]\n\
               8 1:10 expression 7\n\
               9 2:1 name a@global\n\
               10 2:4 name b@global\n\
               11 2:7 name c@global\n\
               12 2:1 comma [9 10 11]\n\
               13 2:1 expression 12\n\
               14 2:11 name a@global\n\
               15 2:14 name b@global\n\
               16 2:11 comma [14 15]\n\
               17 2:18 name c@global\n\
               18 2:10 comma [16 17]\n\
               19 2:10 expression 18\n\
               site 0 1:6 read\n\
               script names 0 items [2 8 13 19]\n",
    },
    // operators of one level group from the left
    Row {
        source: "1 * 2 % 3 + 4 - 5;",
        tree: "0 1:1 number 1\n\
               1 1:5 number 2\n\
               2 1:1 binary Multiply 0 1\n\
               3 1:9 number 3\n\
               4 1:1 binary Remainder 2 3\n\
               5 1:13 number 4\n\
               6 1:1 binary Add 4 5\n\
               7 1:17 number 5\n\
               8 1:1 binary Subtract 6 7\n\
               9 1:1 expression 8\n\
               script names 0 items [9]\n",
    },
    Row {
        source: "a < b >= c == d in e;\na <= b > c !== d instanceof e != f === g;",
        tree: "0 1:1 name a@global\n\
               1 1:5 name b@global\n\
               2 1:1 binary Less 0 1\n\
               3 1:10 name c@global\n\
               4 1:1 binary AtLeast 2 3\n\
               5 1:15 name d@global\n\
               6 1:20 name e@global\n\
               7 1:15 binary In 5 6\n\
               8 1:1 binary Equal 4 7\n\
               9 1:1 expression 8\n\
               10 2:1 name a@global\n\
               11 2:6 name b@global\n\
               12 2:1 binary AtMost 10 11\n\
               13 2:10 name c@global\n\
               14 2:1 binary Greater 12 13\n\
               15 2:16 name d@global\n\
               16 2:29 name e@global\n\
               17 2:16 binary InstanceOf 15 16\n\
               18 2:1 binary NotStrictlyEqual 14 17\n\
               19 2:34 name f@global\n\
               20 2:1 binary NotEqual 18 19\n\
               21 2:40 name g@global\n\
               22 2:1 binary StrictlyEqual 20 21\n\
               23 2:1 expression 22\n\
               script names 0 items [9 23]\n",
    },
    Row {
        source: "a && b || c; a ?? b ?? c;",
        tree: "0 1:1 name a@global\n\
               1 1:6 name b@global\n\
               2 1:1 short And 0 1\n\
               3 1:11 name c@global\n\
               4 1:1 short Or 2 3\n\
               5 1:1 expression 4\n\
               6 1:14 name a@global\n\
               7 1:19 name b@global\n\
               8 1:14 short Coalesce 6 7\n\
               9 1:24 name c@global\n\
               10 1:14 short Coalesce 8 9\n\
               11 1:14 expression 10\n\
               script names 0 items [5 11]\n",
    },
    Row {
        source: "a ? b : c ? d : e;\nvoid typeof +-!a;",
        tree: "0 1:1 name a@global\n\
               1 1:5 name b@global\n\
               2 1:9 name c@global\n\
               3 1:13 name d@global\n\
               4 1:17 name e@global\n\
               5 1:9 conditional 2 3 4\n\
               6 1:1 conditional 0 1 5\n\
               7 1:1 expression 6\n\
               8 2:16 name a@global\n\
               9 2:15 unary Not 8\n\
               10 2:14 unary Minus 9\n\
               11 2:13 unary Plus 10\n\
               12 2:6 unary Typeof 11\n\
               13 2:1 unary Void 12\n\
               14 2:1 expression 13\n\
               script names 0 items [7 14]\n",
    },
    // a name that is assigned to or updated is no node
    Row {
        source: "let a; a = 1; a += 2; a -= 3; a *= 4; a %= 5; ++a; a--;",
        tree: "0 1:1 let a@top0 -\n\
               1 1:12 number 1\n\
               2 1:8 assign Plain a@top0 1\n\
               3 1:8 expression 2\n\
               4 1:20 number 2\n\
               5 1:15 assign Add a@top0 4\n\
               6 1:15 expression 5\n\
               7 1:28 number 3\n\
               8 1:23 assign Subtract a@top0 7\n\
               9 1:23 expression 8\n\
               10 1:36 number 4\n\
               11 1:31 assign Multiply a@top0 10\n\
               12 1:31 expression 11\n\
               13 1:44 number 5\n\
               14 1:39 assign Remainder a@top0 13\n\
               15 1:39 expression 14\n\
               16 1:47 increment prefix a@top0\n\
               17 1:47 expression 16\n\
               18 1:52 decrement postfix a@top0\n\
               19 1:52 expression 18\n\
               script names 1 items [0 3 6 9 12 15 17 19]\n",
    },
    // a site for each direction of an access
    Row {
        source: "a.b; a.b = 1; a.b += 1; a[\"b\"]++;",
        tree: "0 1:1 name a@global\n\
               1 1:1 member 0 .b read 0\n\
               2 1:1 expression 1\n\
               3 1:6 name a@global\n\
               4 1:6 member 3 .b write 1\n\
               5 1:12 number 1\n\
               6 1:6 assign Plain 4 5\n\
               7 1:6 expression 6\n\
               8 1:15 name a@global\n\
               9 1:15 member 8 .b read 2 write 3\n\
               10 1:22 number 1\n\
               11 1:15 assign Add 9 10\n\
               12 1:15 expression 11\n\
               13 1:25 name a@global\n\
               14 1:27 text \"b\"\n\
               15 1:25 index 13 14 read 4 write 5\n\
               16 1:25 increment postfix 15\n\
               17 1:25 expression 16\n\
               site 0 1:2 read\n\
               site 1 1:7 write\n\
               site 2 1:16 read\n\
               site 3 1:16 write\n\
               site 4 1:26 read\n\
               site 5 1:26 write\n\
               script names 0 items [2 7 12 17]\n",
    },
    // the operand of `delete` has no site, also in parentheses; what stands in it has
    Row {
        source: "delete (a.b); delete a.b.c; delete a[0]; delete (a, b.c);",
        tree: "0 1:9 name a@global\n\
               1 1:9 member 0 .b\n\
               2 1:1 unary Delete 1\n\
               3 1:1 expression 2\n\
               4 1:22 name a@global\n\
               5 1:22 member 4 .b read 0\n\
               6 1:22 member 5 .c\n\
               7 1:15 unary Delete 6\n\
               8 1:15 expression 7\n\
               9 1:36 name a@global\n\
               10 1:38 number 0\n\
               11 1:36 index 9 10\n\
               12 1:29 unary Delete 11\n\
               13 1:29 expression 12\n\
               14 1:50 name a@global\n\
               15 1:53 name b@global\n\
               16 1:53 member 15 .c read 1\n\
               17 1:50 comma [14 16]\n\
               18 1:42 unary Delete 17\n\
               19 1:42 expression 18\n\
               site 0 1:23 read\n\
               site 1 1:54 read\n\
               script names 0 items [3 8 13 19]\n",
    },
    // a call, and `new` with its arguments or without
    Row {
        source: "a.b(1, 2); new a.b; new c(3)(4);",
        tree: "0 1:1 name a@global\n\
               1 1:1 member 0 .b read 0\n\
               2 1:5 number 1\n\
               3 1:8 number 2\n\
               4 1:1 call 1 [2 3]\n\
               5 1:1 expression 4\n\
               6 1:16 name a@global\n\
               7 1:16 member 6 .b read 1\n\
               8 1:12 new 7 []\n\
               9 1:12 expression 8\n\
               10 1:25 name c@global\n\
               11 1:27 number 3\n\
               12 1:21 new 10 [11]\n\
               13 1:30 number 4\n\
               14 1:21 call 12 [13]\n\
               15 1:21 expression 14\n\
               site 0 1:2 read\n\
               site 1 1:17 read\n\
               script names 0 items [5 9 15]\n",
    },
];
