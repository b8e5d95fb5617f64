//! Programs of branches, tables and calls, and each end of a run: what `check` and `run` answer on their images.

static RUN_PROGRAMS: [&str; 20] = [
    r#"branches
#a.json
{"valex":"unit","version":1,"unit":"a.c","functions":[{"name":"main","static":false,"code":[["imm",3,0],["cmpwi",0,3,0],["bt",2,1],["addi",3,3,1],["label",1],["blr"]]}],
"variables":[],"externals":[]}
#image
entry 10010000
segment 10010000 5 14 38600000 2c030000 41820008 38630001 4e800020
symbol 10010000 12 fff1 main
#0
yes
functions 1 bytes 20
tables 0 bytes 0
variables 0 bytes 0
externals 0
padding 0
foreign 0
loaded 20
10010000 10010014 function a.c main
#run 0 10
assembly
ended 00000000
image
ended 00000000
same
#image
entry 10010000
segment 10010000 5 18 38600000 2c030000 40820008 48000008 38630001 4e800020
symbol 10010000 12 fff1 main
#0
yes
functions 1 bytes 24
tables 0 bytes 0
variables 0 bytes 0
externals 0
padding 0
foreign 0
loaded 24
10010000 10010018 function a.c main
#run 0 10
assembly
ended 00000000
image
ended 00000000
same
#image
entry 10010000
segment 10010000 5 18 38600000 2c030000 4082000c 48000008 38630001 4e800020
symbol 10010000 12 fff1 main
#1
no
rule 8 field
place a.c main 00000008
item 0
wanted 40820008
found 4082000c
#image
entry 10010000
segment 10010000 5 14 38600000 2c030000 4182000c 38630001 4e800020
symbol 10010000 12 fff1 main
#1
no
rule 10 branch
place a.c main 00000008
item 0
wanted 10010010
found 10010014"#,
    r#"loop
#a.json
{"valex":"unit","version":1,"unit":"a.c","functions":[{"name":"main","static":false,"code":[["label",1],["bdnz",1],["blr"]]}],
"variables":[],"externals":[]}
#image
entry 10010000
segment 10010000 5 8 42000000 4e800020
symbol 10010000 12 fff1 main
#0
yes
functions 1 bytes 8
tables 0 bytes 0
variables 0 bytes 0
externals 0
padding 0
foreign 0
loaded 8
10010000 10010008 function a.c main
#run 0 10
assembly
undefined count
image
going
same
#image
entry 10010000
segment 10010000 5 8 42000004 4e800020
symbol 10010000 12 fff1 main
#1
no
rule 10 branch
place a.c main 00000000
item 0
wanted 10010000
found 10010004"#,
    r#"jump table
#a.json
{"valex":"unit","version":1,"unit":"a.c","functions":[{"name":"main","static":false,"code":[["imm",3,1],["btbl",3,[1,2,3]],["label",1],["imm",3,10],["blr"],["label",2],["imm",3,20],["blr"],["label",3],["imm",3,30],["blr"]]}],
"variables":[],"externals":[]}
#image
entry 10010000
segment 10010000 5 3c 38600001 546c103a 3d8c1001 818c0030 7d8903a6 4e800420 3860000a 4e800020 38600014 4e800020 3860001e 4e800020 10010018 10010020 10010028
symbol 10010000 12 fff1 main
#0
yes
functions 1 bytes 48
tables 1 bytes 12
variables 0 bytes 0
externals 0
padding 0
foreign 0
loaded 60
10010000 10010030 function a.c main
10010030 1001003c table a.c main 00000004
#run 0 10
assembly
ended 00000014
image
ended 00000014
same
#image
entry 10010000
segment 10010000 5 3c 38600001 546c103a 3d8c1001 818c0030 7d8903a6 4e800420 3860000a 4e800020 38600014 4e800020 3860001e 4e800020 10010018 10010020 1001002c
symbol 10010000 12 fff1 main
#1
no
rule 13 table-word
place a.c main 00000004
item 2
wanted 10010028
found 1001002c
#image
entry 10010000
segment 10010000 5 3c 38600001 546c103a 3d8c1001 818c0030 7d8903a6 4e800420 3860000a 4e800020 38600014 4e800020 3860001e 4e800020 10010018 1001001c 1001002c
symbol 10010000 12 fff1 main
#1
no
rule 13 table-word
place a.c main 00000004
item 1
wanted 10010020
found 1001001c
#run 7 10
assembly
ended 00000014
image
ended 00000001
differ 0
#image
entry 10010000
segment 10010000 5 3c 38600001 546c103a 3d8c1001 818c0032 7d8903a6 4e800420 3860000a 4e800020 38600014 4e800020 3860001e 4e800020 10010018 10010020 10010028
symbol 10010000 12 fff1 main
#1
no
rule 12 table-place
place a.c main 00000004
item 0
wanted 00000000
found 10010032
#run 7 10
assembly
ended 00000014
image
faulted unmapped
differ 0
#image
entry 10010000
segment 10010000 5 38 38600001 546c103a 3d8c1001 818c0030 7d8903a6 4e800420 3860000a 4e800020 38600014 4e800020 3860001e 4e800020 10010018 10010020
symbol 10010000 12 fff1 main
#1
no
rule 12 table-place
place a.c main 00000004
item 0
wanted 00000000
found 10010030"#,
    r#"a read without a value
#a.json
{"valex":"unit","version":1,"unit":"a.c","functions":[{"name":"main","static":false,"code":[["allocframe",16],["or",4,1,1],["freeframe",16],["lwz",3,8,4],["blr"]]}],
"variables":[],"externals":[]}
#image
entry 10010000
segment 10010000 5 14 9421fff0 7c240b78 38210010 80640008 4e800020
symbol 10010000 12 fff1 main
#0
yes
functions 1 bytes 20
tables 0 bytes 0
variables 0 bytes 0
externals 0
padding 0
foreign 0
loaded 20
10010000 10010014 function a.c main
#run 0 10
assembly
undefined access
image
ended a5a5a5a5
same"#,
    r#"a stack for the root alone
#layout
area code 10010000 10011000
stack 20000000 20000010
#a.json
{"valex":"unit","version":1,"unit":"a.c","functions":[{"name":"main","static":false,"code":[["allocframe",16],["or",4,1,1],["freeframe",16],["lwz",3,8,4],["blr"]]}],
"variables":[],"externals":[]}
#image
entry 10010000
segment 10010000 5 14 9421fff0 7c240b78 38210010 80640008 4e800020
symbol 10010000 12 fff1 main
#run 0 10
assembly
stack
image
faulted unmapped
same"#,
    r#"a stack that the frame fills
#layout
area code 10010000 10011000
stack 20000000 20000020
#a.json
{"valex":"unit","version":1,"unit":"a.c","functions":[{"name":"main","static":false,"code":[["allocframe",16],["or",4,1,1],["freeframe",16],["lwz",3,8,4],["blr"]]}],
"variables":[],"externals":[]}
#image
entry 10010000
segment 10010000 5 14 9421fff0 7c240b78 38210010 80640008 4e800020
symbol 10010000 12 fff1 main
#run 0 10
assembly
undefined access
image
ended a5a5a5a5
same"#,
    r#"a division by zero
#a.json
{"valex":"unit","version":1,"unit":"a.c","functions":[{"name":"main","static":false,"code":[["imm",3,1],["imm",4,0],["divw",3,3,4],["blr"]]}],
"variables":[],"externals":[]}
#image
entry 10010000
segment 10010000 5 8 38600007 4e800020
symbol 10010000 12 fff1 main
#run 0 10
assembly
undefined divide
image
ended 00000007
same
#image
entry 10010000
segment 10010000 5 10 38600001 38800000 7c6323d6 4e800020
symbol 10010000 12 fff1 main
#run 0 10
assembly
undefined divide
image
faulted divide
same"#,
    r#"a trap
#a.json
{"valex":"unit","version":1,"unit":"a.c","functions":[{"name":"main","static":false,"code":[["trap"]]}],
"variables":[],"externals":[]}
#image
entry 10010000
segment 10010000 5 4 7fe00008
symbol 10010000 12 fff1 main
#run 0 10
assembly
undefined trap
image
faulted trap
same"#,
    r#"a function without a return
#a.json
{"valex":"unit","version":1,"unit":"a.c","functions":[{"name":"main","static":false,"code":[["addi",3,0,7]]}],
"variables":[],"externals":[]}
#image
entry 10010000
segment 10010000 5 4 38600007
symbol 10010000 12 fff1 main
#run 0 10
assembly
undefined end
image
faulted unmapped
same"#,
    r#"a branch on a bit without a value
#a.json
{"valex":"unit","version":1,"unit":"a.c","functions":[{"name":"main","static":false,"code":[["addi",3,0,7],["bt",2,1],["label",1],["blr"]]}],
"variables":[],"externals":[]}
#image
entry 10010000
segment 10010000 5 c 38600007 41820004 4e800020
symbol 10010000 12 fff1 main
#run 0 10
assembly
undefined bit
image
ended 00000007
same"#,
    r#"a jump to a place without a value
#a.json
{"valex":"unit","version":1,"unit":"a.c","functions":[{"name":"main","static":false,"code":[["bctr"]]}],
"variables":[],"externals":[]}
#image
entry 10010000
segment 10010000 5 4 4e800420
symbol 10010000 12 fff1 main
#run 0 10
assembly
undefined target
image
faulted unmapped
same"#,
    r#"a frame that was not made
#a.json
{"valex":"unit","version":1,"unit":"a.c","functions":[{"name":"main","static":false,"code":[["freeframe",16],["blr"]]}],
"variables":[],"externals":[]}
#image
entry 10010000
segment 10010000 5 8 38210010 4e800020
symbol 10010000 12 fff1 main
#run 0 10
assembly
undefined frame
image
ended a5a5a5a5
same"#,
    r#"a number without a label
#a.json
{"valex":"unit","version":1,"unit":"a.c","functions":[{"name":"main","static":false,"code":[["imm",3,1],["btbl",3,[1]],["label",1],["blr"]]}],
"variables":[],"externals":[]}
#image
entry 10010000
segment 10010000 5 20 38600001 546c103a 3d8c1001 818c001c 7d8903a6 4e800420 4e800020 10010018
symbol 10010000 12 fff1 main
#run 0 10
assembly
undefined table
image
faulted unmapped
same"#,
    r#"a store to a constant
#layout
area code 10010000 10011000
area const 10018000 10019000
#a.json
{"valex":"unit","version":1,"unit":"a.c","functions":[{"name":"main","static":false,"code":[["addis",4,0,["ha","x",0]],["stw",3,["lo","x",0],4],["blr"]]}],
"variables":[{"name":"x","static":false,"writable":false,"align":4,"init":[["i32",5]]}],"externals":[]}
#image
entry 10010000
segment 10010000 5 c 3c801002 90648000 4e800020
segment 10018000 4 4 00000005
symbol 10010000 12 fff1 main
symbol 10018000 11 fff1 x
#run 0 10
assembly
undefined access
image
faulted read-only
same"#,
    r#"an argument without a value
#layout
area code 10010000 10011000
foreign 10020000 10020100
#a.json
{"valex":"unit","version":1,"unit":"a.c","functions":[{"name":"main","static":false,"code":[["bl","putw"],["blr"]]}],
"variables":[],"externals":[{"name":"putw","sig":{"args":["w"],"result":"none"}}]}
#image
entry 10010000
segment 10010000 5 8 48010001 4e800020
symbol 10010000 12 fff1 main
symbol 10020000 12 fff1 putw
#run 0 10 0
assembly
undefined argument
image
call putw a5a5a5a5
faulted unmapped
same"#,
    r#"a long argument and a long result
#layout
area code 10010000 10011000
foreign 10020000 10020100
#a.json
{"valex":"unit","version":1,"unit":"a.c","functions":[{"name":"main","static":false,"code":[["allocframe",16],["mflr",0],["stw",0,8,1],["imm",3,1],["imm",5,2],["imm",6,3],["bl","swap"],["or",3,4,4],
["lwz",0,8,1],["mtlr",0],["freeframe",16],["blr"]]}],
"variables":[],"externals":[{"name":"swap","sig":{"args":["w","l"],"result":"l"}}]}
#image
entry 10010000
segment 10010000 5 30 9421fff0 7c0802a6 90010008 38600001 38a00002 38c00003 4800ffe9 7c832378 80010008 7c0803a6 38210010 4e800020
symbol 10010000 12 fff1 main
symbol 10020000 12 fff1 swap
#run 0 100 [7,9]
assembly
call swap 00000001 00000002 00000003
ended 00000009
image
call swap 00000001 00000002 00000003
ended 00000009
same
#run 0 100 7
assembly
call swap 00000001 00000002 00000003
ended deadbeef
image
call swap 00000001 00000002 00000003
ended deadbeef
same"#,
    r#"two externals
#layout
area code 10010000 10011000
foreign 10020000 10020100
#a.json
{"valex":"unit","version":1,"unit":"a.c","functions":[{"name":"main","static":false,"code":[["allocframe",16],["mflr",0],["stw",0,8,1],["bl","e"],["imm",3,0],["lwz",0,8,1],["mtlr",0],["freeframe",16],["blr"]]},
{"name":"g","static":false,"code":[["bs","f"]]}],
"variables":[],"externals":[{"name":"e","sig":{"args":[],"result":"none"}},{"name":"f","sig":{"args":[],"result":"none"}}]}
#image
entry 10010000
segment 10010000 5 28 9421fff0 7c0802a6 90010008 4800fff5 38600000 80010008 7c0803a6 38210010 4e800020 4800ffe0
symbol 10010000 12 fff1 main
symbol 10010024 12 fff1 g
symbol 10020000 12 fff1 e
symbol 10020004 12 fff1 f
#run 0 100 0
assembly
call e
ended 00000000
image
call e
ended 00000000
same
#image
entry 10010000
segment 10010000 5 28 9421fff0 7c0802a6 90010008 4800fff9 38600000 80010008 7c0803a6 38210010 4e800020 4800ffe0
symbol 10010000 12 fff1 main
symbol 10010024 12 fff1 g
symbol 10020000 12 fff1 e
symbol 10020004 12 fff1 f
#1
no
rule 10 branch
place a.c main 0000000c
item 0
wanted 10020000
found 10020004
#run 7 100 0
assembly
call e
ended 00000000
image
call f
ended 00000000
differ 0"#,
    r#"an external that reads a buffer
#layout
area code 10010000 10011000
area const 10018000 10019000
foreign 10020000 10020100
#a.json
{"valex":"unit","version":2,"unit":"a.c","functions":[{"name":"main","static":false,"code":[["allocframe",16],["mflr",0],["stw",0,8,1],["addis",3,0,["ha","s",0]],["addi",3,3,["lo","s",0]],["imm",4,2],["bl","write"],
["imm",3,0],["lwz",0,8,1],["mtlr",0],["freeframe",16],["blr"]]}],
"variables":[{"name":"s","static":false,"writable":false,"align":1,"init":[["bytes","6869"]]}],"externals":[{"name":"write","sig":{"args":["w","w"],"result":"none","buffers":[["in",0,["arg",1]]]}}]}
#image
entry 10010000
segment 10010000 5 30 9421fff0 7c0802a6 90010008 3c601002 38638000 38800002 4800ffe9 38600000 80010008 7c0803a6 38210010 4e800020
segment 10018000 4 2 6869
symbol 10010000 12 fff1 main
symbol 10018000 11 fff1 s
symbol 10020000 10 fff1 write
#0
yes
functions 1 bytes 48
tables 0 bytes 0
variables 1 bytes 2
externals 1
padding 0
foreign 0
loaded 50
10010000 10010030 function a.c main
10018000 10018002 variable a.c s
#run 0 100 0
assembly
call write 10018000 00000002 in:6869
ended 00000000
image
call write 10018000 00000002 in:6869
ended 00000000
same
#image
entry 10010000
segment 10010000 5 30 9421fff0 7c0802a6 90010008 3c601002 38638000 38800002 4800ffe9 38600000 80010008 7c0803a6 38210010 4e800020
segment 10018000 4 2 6868
symbol 10010000 12 fff1 main
symbol 10018000 11 fff1 s
symbol 10020000 10 fff1 write
#1
no
rule 14 data-bytes
place a.c s 00000001
item 0
wanted 00000069
found 00000068
#run 7 100 0
assembly
call write 10018000 00000002 in:6869
ended 00000000
image
call write 10018000 00000002 in:6868
ended 00000000
differ 0"#,
    r#"a buffer that is too long
#layout
area code 10010000 10011000
area const 10018000 10019000
foreign 10020000 10020100
#a.json
{"valex":"unit","version":2,"unit":"a.c","functions":[{"name":"main","static":false,"code":[["allocframe",16],["mflr",0],["stw",0,8,1],["addis",3,0,["ha","s",0]],["addi",3,3,["lo","s",0]],["imm",4,65537],["bl","write"],
["imm",3,0],["lwz",0,8,1],["mtlr",0],["freeframe",16],["blr"]]}],
"variables":[{"name":"s","static":false,"writable":false,"align":1,"init":[["bytes","6869"]]}],"externals":[{"name":"write","sig":{"args":["w","w"],"result":"none","buffers":[["in",0,["arg",1]]]}}]}
#image
entry 10010000
segment 10010000 5 34 9421fff0 7c0802a6 90010008 3c601002 38638000 3c800001 60840001 4800ffe5 38600000 80010008 7c0803a6 38210010 4e800020
segment 10018000 4 2 6869
symbol 10010000 12 fff1 main
symbol 10018000 11 fff1 s
symbol 10020000 12 fff1 write
#run 0 100 0
assembly
undefined buffer
image
faulted buffer
same"#,
    r#"an external that fills a buffer
#layout
area code 10010000 10011000
area data 10018000 10019000
foreign 10020000 10020100
#a.json
{"valex":"unit","version":2,"unit":"a.c","functions":[{"name":"main","static":false,"code":[["allocframe",16],["mflr",0],["stw",0,8,1],["addis",3,0,["ha","x",0]],["addi",3,3,["lo","x",0]],["bl","fill"],
["addis",4,0,["ha","x",0]],["lwz",3,["lo","x",0],4],["lwz",0,8,1],["mtlr",0],["freeframe",16],["blr"]]}],
"variables":[{"name":"x","static":false,"writable":true,"align":4,"init":[["i32",0]]}],"externals":[{"name":"fill","sig":{"args":["w"],"result":"none","buffers":[["out",0,4]]}}]}
#image
entry 10010000
segment 10010000 5 30 9421fff0 7c0802a6 90010008 3c601002 38638000 4800ffed 3c801002 80648000 80010008 7c0803a6 38210010 4e800020
segment 10018000 6 4 00000000
symbol 10010000 12 fff1 main
symbol 10018000 11 fff1 x
symbol 10020000 12 fff1 fill
#run 0 100 {"r3":0,"r4":0,"fills":["0000002a"]}
assembly
call fill 10018000
ended 0000002a
image
call fill 10018000
ended 0000002a
same
#run 0 100 {"r3":0,"r4":0,"fills":["00002a"]}
assembly
call fill 10018000
ended 00002a00
image
call fill 10018000
ended 00002a00
same"#,
];

static RUN_WORDS: [&str; 25] = [
    "run layout.json image.elf replies.json 1000000 a.json => 0 assembly\nended 00000007\nimage\nended 00000007\nsame",
    "run layout.json image.elf replies.json 0000000010 a.json => 0 assembly\nended 00000007\nimage\nended 00000007\nsame",
    "run layout.json image.elf replies.json 1000001 a.json => 2 usage",
    "run layout.json image.elf replies.json 00000000010 a.json => 2 usage",
    "run layout.json image.elf replies.json 4294967296 a.json => 2 usage",
    "run layout.json image.elf replies.json -1 a.json => 2 usage",
    "run layout.json image.elf replies.json +1 a.json => 2 usage",
    "run layout.json image.elf replies.json 1.0 a.json => 2 usage",
    "run layout.json image.elf replies.json 0x1 a.json => 2 usage",
    "run layout.json image.elf replies.json ten a.json => 2 usage",
    "run => 2 usage",
    "run layout.json image.elf replies.json => 2 usage",
    "run layout.json image.elf replies.json 10 => 2 usage",
    "run layout.json image.elf replies.json a.json => 2 usage",
    "run layout.json image.elf replies.json 10 -a.json => 2 usage",
    "run no.json image.elf no.json 10 no.json => 4 read fault no.json",
    "run x.json no.elf no.json 10 no.json => 4 read fault no.elf",
    "run x.json x.json no.json 10 none.json => 4 read fault no.json",
    "run x.json x.json x.json 10 none.json => 4 read fault none.json",
    "run x.json x.json x.json 10 x.json => 3 refused x.json layout 1 not-json .",
    "run layout.json x.json x.json 10 x.json => 3 refused x.json elf 1 short 1",
    "run layout.json image.elf x.json 10 a.json layout.json => 3 refused layout.json dump 5 unknown-word valex",
    "run layout.json image.elf x.json 10 a.json a.json => 3 refused x.json replies 1 not-json .",
    "run layout.json image.elf a.json 10 a.json => 3 refused a.json replies 5 unknown-word valex",
    "run layout.json image.elf replies.json 10 a.json a.json => 3 refused a.json link 1 unit-twice a.c",
];

/// In the form of `code_programs`.
pub fn run_programs() -> &'static [&'static str] {
    &RUN_PROGRAMS
}

/// Words over the files that `run` accepts and `x.json`, which holds a bracket, and their statuses and texts. `usage` stands for that text.
pub fn run_words() -> &'static [&'static str] {
    &RUN_WORDS
}
