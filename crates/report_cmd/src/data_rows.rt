//! Programs with variables, and what `check` and `run` answer on their images.

static DATA_PROGRAMS: [&str; 19] = [
    r#"read-only load
#layout
area code 10010000 10011000
area data 10018000 10019000
#a.json
{"valex":"unit","version":1,"unit":"a.c","functions":[{"name":"main","static":false,"code":[["addis",4,0,["ha","x",0]],["lwz",3,["lo","x",0],4],["blr"]]}],
"variables":[{"name":"x","static":false,"writable":false,"align":4,"init":[["i32",42]]}],"externals":[]}
#image
entry 10010000
segment 10010000 5 c 3c801002 80648000 4e800020
segment 10018000 4 4 0000002a
symbol 10010000 12 fff1 main
symbol 10018000 11 fff1 x
#0
yes
functions 1 bytes 12
tables 0 bytes 0
variables 1 bytes 4
externals 0
padding 0
foreign 0
loaded 16
10010000 1001000c function a.c main
10018000 10018004 variable a.c x
#run 0 10
assembly
ended 0000002a
image
ended 0000002a
same
#image
entry 10010000
segment 10010000 5 c 3c801001 80648000 4e800020
segment 10018000 4 4 0000002a
symbol 10010000 12 fff1 main
symbol 10018000 11 fff1 x
#1
no
rule 9 half
place a.c main 00000000
item 0
wanted 3c801002
found 3c801001
#run 7 10
assembly
ended 0000002a
image
faulted unmapped
differ 0
#image
entry 10010000
segment 10010000 5 c 3c801002 80648004 4e800020
segment 10018000 4 4 0000002a
symbol 10010000 12 fff1 main
symbol 10018000 11 fff1 x
#1
no
rule 9 half
place a.c main 00000004
item 0
wanted 80648000
found 80648004
#image
entry 10010000
segment 10010000 5 c 3c801002 80658004 4e800020
segment 10018000 4 4 0000002a
symbol 10010000 12 fff1 main
symbol 10018000 11 fff1 x
#1
no
rule 8 field
place a.c main 00000004
item 0
wanted 80648000
found 80658004
#image
entry 10010000
segment 10010000 5 c 3c801002 80648000 4e800020
segment 10018000 4 4 0000002b
symbol 10010000 12 fff1 main
symbol 10018000 11 fff1 x
#1
no
rule 14 data-bytes
place a.c x 00000003
item 0
wanted 0000002a
found 0000002b
#image
entry 10010000
segment 10010000 5 c 3c801002 80648000 4e800020
segment 10018000 4 2 0000
symbol 10010000 12 fff1 main
symbol 10018000 11 fff1 x
#1
no
rule 14 data-bytes
place a.c x 00000002
item 0
wanted 00000000
found 00000100"#,
    r#"string literals
#layout
area code 10010000 10011000
area const 10018000 10019000
#a.json
{"valex":"unit","version":1,"unit":"a.c","functions":[{"name":"main","static":false,"code":[["addis",3,0,["ha","__stringlit_1",0]],["addi",3,3,["lo","__stringlit_1",0]],["blr"]]}],
"variables":[{"name":"__stringlit_1","static":true,"writable":false,"align":1,"init":[["bytes","686900"]]}],"externals":[]}
#b.json
{"valex":"unit","version":1,"unit":"b.c","functions":[{"name":"g","static":false,"code":[["addis",3,0,["ha","__stringlit_1",0]],["addi",3,3,["lo","__stringlit_1",0]],["blr"]]}],
"variables":[{"name":"__stringlit_1","static":true,"writable":false,"align":1,"init":[["bytes","686900"]]}],"externals":[]}
#image
entry 10010000
segment 10010000 5 18 3c601002 38638000 4e800020 3c601002 38638008 4e800020
segment 10018000 4 b 68690000 00000000 686900
symbol 10010000 12 fff1 main
symbol 1001000c 12 fff1 g
symbol 10018000 1 fff1 __stringlit_1
symbol 10018008 1 fff1 __stringlit_1
#0
yes
functions 2 bytes 24
tables 0 bytes 0
variables 2 bytes 6
externals 0
padding 5
foreign 0
loaded 35
10010000 1001000c function a.c main
1001000c 10010018 function b.c g
10018000 10018003 variable a.c __stringlit_1
10018003 10018008 padding
10018008 1001800b variable b.c __stringlit_1"#,
    r#"string literals without a use
#layout
area code 10010000 10011000
area const 10018000 10019000
#a.json
{"valex":"unit","version":1,"unit":"a.c","functions":[{"name":"main","static":false,"code":[["imm",3,7],["blr"]]}],
"variables":[{"name":"__stringlit_1","static":true,"writable":false,"align":1,"init":[["bytes","686900"]]}],"externals":[]}
#b.json
{"valex":"unit","version":1,"unit":"b.c","functions":[{"name":"g","static":false,"code":[["imm",3,7],["blr"]]}],
"variables":[{"name":"__stringlit_1","static":true,"writable":false,"align":1,"init":[["bytes","686900"]]}],"externals":[]}
#image
entry 10010000
segment 10010000 5 10 38600007 4e800020 38600007 4e800020
segment 10018000 4 b 68690000 00000000 686900
symbol 10010000 12 fff1 main
symbol 10010008 12 fff1 g
symbol 10018000 1 fff1 __stringlit_1
symbol 10018008 1 fff1 __stringlit_1
#1
no
rule 4 several-fit
place a.c __stringlit_1 00000000
item 0
wanted 00000001
found 00000002"#,
    r#"pins of string literals
#layout
area code 10010000 10011000
area const 10018000 10019000
pin a.c __stringlit_1 10018000
pin b.c __stringlit_1 10018008
#a.json
{"valex":"unit","version":1,"unit":"a.c","functions":[{"name":"main","static":false,"code":[["imm",3,7],["blr"]]}],
"variables":[{"name":"__stringlit_1","static":true,"writable":false,"align":1,"init":[["bytes","686900"]]}],"externals":[]}
#b.json
{"valex":"unit","version":1,"unit":"b.c","functions":[{"name":"g","static":false,"code":[["imm",3,7],["blr"]]}],
"variables":[{"name":"__stringlit_1","static":true,"writable":false,"align":1,"init":[["bytes","686900"]]}],"externals":[]}
#image
entry 10010000
segment 10010000 5 10 38600007 4e800020 38600007 4e800020
segment 10018000 4 b 68690000 00000000 686900
symbol 10010000 12 fff1 main
symbol 10010008 12 fff1 g
symbol 10018000 1 fff1 __stringlit_1
symbol 10018008 1 fff1 __stringlit_1
#0
yes
functions 2 bytes 16
tables 0 bytes 0
variables 2 bytes 6
externals 0
padding 5
foreign 0
loaded 27
10010000 10010008 function a.c main
10010008 10010010 function b.c g
10018000 10018003 variable a.c __stringlit_1
10018003 10018008 padding
10018008 1001800b variable b.c __stringlit_1"#,
    r#"small data of r13
#layout
area code 10010000 10011000
area sda13 10030000 10031000
#a.json
{"valex":"unit","version":1,"unit":"a.c","functions":[{"name":"main","static":false,"code":[["lwz",3,["sda","x",0],0],["blr"]]}],
"variables":[{"name":"x","static":false,"writable":true,"align":4,"init":[["i32",5]]}],"externals":[]}
#image
entry 10010000
segment 10010000 5 8 806d8010 4e800020
segment 10030010 6 4 00000005
symbol 10010000 12 fff1 main
symbol 10030010 11 fff1 x
#0
yes
functions 1 bytes 8
tables 0 bytes 0
variables 1 bytes 4
externals 0
padding 0
foreign 0
loaded 12
10010000 10010008 function a.c main
10030010 10030014 variable a.c x
#run 0 10
assembly
ended 00000005
image
ended 00000005
same"#,
    r#"small data of r2
#layout
area code 10010000 10011000
area sda2 10040000 10041000
#a.json
{"valex":"unit","version":1,"unit":"a.c","functions":[{"name":"main","static":false,"code":[["lwz",3,["sda","x",0],0],["blr"]]}],
"variables":[{"name":"x","static":false,"writable":false,"align":4,"init":[["i32",5]]}],"externals":[]}
#image
entry 10010000
segment 10010000 5 8 80628010 4e800020
segment 10040010 4 4 00000005
symbol 10010000 12 fff1 main
symbol 10040010 11 fff1 x
#0
yes
functions 1 bytes 8
tables 0 bytes 0
variables 1 bytes 4
externals 0
padding 0
foreign 0
loaded 12
10010000 10010008 function a.c main
10040010 10040014 variable a.c x
#run 0 10
assembly
ended 00000005
image
ended 00000005
same"#,
    r#"small data of 0
#layout
area code 10010000 10011000
area sda0 00001000 00002000
#a.json
{"valex":"unit","version":1,"unit":"a.c","functions":[{"name":"main","static":false,"code":[["lwz",3,["sda","x",0],0],["blr"]]}],
"variables":[{"name":"x","static":false,"writable":true,"align":4,"init":[["i32",5]]}],"externals":[]}
#image
entry 10010000
segment 10010000 5 8 80601010 4e800020
segment 00001010 6 4 00000005
symbol 10010000 12 fff1 main
symbol 00001010 11 fff1 x
#0
yes
functions 1 bytes 8
tables 0 bytes 0
variables 1 bytes 4
externals 0
padding 0
foreign 0
loaded 12
00001010 00001014 variable a.c x
10010000 10010008 function a.c main
#run 0 10
assembly
ended 00000005
image
ended 00000005
same"#,
    r#"small data by the wrong register
#layout
area code 10010000 10011000
area sda2 10038000 10039000
#a.json
{"valex":"unit","version":1,"unit":"a.c","functions":[{"name":"main","static":false,"code":[["lwz",3,["sda","x",0],0],["blr"]]}],
"variables":[{"name":"x","static":false,"writable":false,"align":4,"init":[["i32",5]]}],"externals":[]}
#image
entry 10010000
segment 10010000 5 8 806d0010 4e800020
segment 10038010 4 4 00000005
symbol 10010000 12 fff1 main
symbol 10038010 11 fff1 x
#1
no
rule 11 sda
place a.c main 00000000
item 3
wanted 0000000d
found 00000002"#,
    r#"small data at the wrong address
#layout
area code 10010000 10011000
area sda13 10030000 10031000
#a.json
{"valex":"unit","version":1,"unit":"a.c","functions":[{"name":"main","static":false,"code":[["lwz",3,["sda","x",0],0],["blr"]]}],
"variables":[{"name":"x","static":false,"writable":true,"align":4,"init":[["i32",5]]}],"externals":[]}
#image
entry 10010000
segment 10010000 5 8 806d8014 4e800020
segment 10030010 6 4 00000005
symbol 10010000 12 fff1 main
symbol 10030010 11 fff1 x
#1
no
rule 11 sda
place a.c main 00000000
item 2
wanted 10030010
found 10030014"#,
    r#"small data by another register
#layout
area code 10010000 10011000
area sda13 10030000 10031000
#a.json
{"valex":"unit","version":1,"unit":"a.c","functions":[{"name":"main","static":false,"code":[["lwz",3,["sda","x",0],0],["blr"]]}],
"variables":[{"name":"x","static":false,"writable":true,"align":4,"init":[["i32",5]]}],"externals":[]}
#image
entry 10010000
segment 10010000 5 8 80638010 4e800020
segment 10030010 6 4 00000005
symbol 10010000 12 fff1 main
symbol 10030010 11 fff1 x
#1
no
rule 11 sda
place a.c main 00000000
item 1
wanted 0000000d
found 00000003"#,
    r#"commons
#layout
area code 10010000 10011000
area data 10018000 10019000
#a.json
{"valex":"unit","version":1,"unit":"a.c","functions":[{"name":"main","static":false,"code":[["addi",3,0,7],["blr"]]}],
"variables":[{"name":"x","static":false,"writable":true,"align":4,"init":[["space",4]]}],"externals":[]}
#b.json
{"valex":"unit","version":1,"unit":"b.c","functions":[{"name":"g","static":false,"code":[["addi",3,0,7],["blr"]]}],
"variables":[{"name":"x","static":false,"writable":true,"align":4,"init":[["space",4]]}],"externals":[]}
#image
entry 10010000
segment 10010000 5 10 38600007 4e800020 38600007 4e800020
segment 10018000 6 4
symbol 10010000 12 fff1 main
symbol 10010008 12 fff1 g
symbol 10018000 11 fff1 x
#0
yes
functions 2 bytes 16
tables 0 bytes 0
variables 1 bytes 4
externals 0
padding 0
foreign 0
loaded 20
10010000 10010008 function a.c main
10010008 10010010 function b.c g
10018000 10018004 variable a.c x"#,
    r#"commons of two sizes
#layout
area code 10010000 10011000
area data 10018000 10019000
#a.json
{"valex":"unit","version":1,"unit":"a.c","functions":[{"name":"main","static":false,"code":[["addi",3,0,7],["blr"]]}],
"variables":[{"name":"x","static":false,"writable":true,"align":4,"init":[["space",4]]}],"externals":[]}
#b.json
{"valex":"unit","version":1,"unit":"b.c","functions":[{"name":"g","static":false,"code":[["addi",3,0,7],["blr"]]}],
"variables":[{"name":"x","static":false,"writable":true,"align":4,"init":[["space",8]]}],"externals":[]}
#image
entry 10010000
segment 10010000 5 10 38600007 4e800020 38600007 4e800020
segment 10018000 6 4
symbol 10010000 12 fff1 main
symbol 10010008 12 fff1 g
symbol 10018000 11 fff1 x
#3
refused b.json link 2 defined-twice x"#,
    r#"zero fill
#layout
area code 10010000 10011000
area data 10018000 1001800c
#a.json
{"valex":"unit","version":1,"unit":"a.c","functions":[{"name":"main","static":false,"code":[["addi",3,0,7],["blr"]]}],
"variables":[{"name":"x","static":false,"writable":true,"align":4,"init":[["i32",5]]},
{"name":"y","static":false,"writable":true,"align":4,"init":[["space",8]]}],"externals":[]}
#image
entry 10010000
segment 10010000 5 8 38600007 4e800020
segment 10018000 6 c 00000005
symbol 10010000 12 fff1 main
symbol 10018000 11 fff1 x
symbol 10018004 11 fff1 y
#0
yes
functions 1 bytes 8
tables 0 bytes 0
variables 2 bytes 12
externals 0
padding 0
foreign 0
loaded 20
10010000 10010008 function a.c main
10018000 10018004 variable a.c x
10018004 1001800c variable a.c y
#image
entry 10010000
segment 10010000 5 8 38600007 4e800020
segment 10018000 6 10 00000005
symbol 10010000 12 fff1 main
symbol 10018000 11 fff1 x
symbol 10018004 11 fff1 y
#1
no
rule 17 stray
place - - 1001800c
item 0
wanted 00000000
found 00000000
#image
entry 10010000
segment 10010000 5 8 38600007 4e800020
segment 10018000 4 c 00000005
symbol 10010000 12 fff1 main
symbol 10018000 11 fff1 x
symbol 10018004 11 fff1 y
#1
no
rule 15 data-place
place a.c x 00000000
item 4
wanted 00000000
found 10018000
#image
entry 10010000
segment 10010000 5 8 38600007 4e800020
segment 10018000 6 c 00000005
symbol 10010000 12 fff1 main
symbol 10018000 11 fff1 x
symbol 10018000 11 fff1 y
#1
no
rule 14 data-bytes
place a.c y 00000003
item 0
wanted 00000000
found 00000005
#image
entry 10010000
segment 10010000 5 8 38600007 4e800020
segment 10018000 6 c 00000005
symbol 10010000 12 fff1 main
symbol 10018000 11 fff1 x
symbol 10018004 11 fff1 y
symbol 10018008 11 fff1 y
#1
no
rule 4 several-fit
place a.c y 00000000
item 0
wanted 00000001
found 00000002"#,
    r#"a variable among code
#a.json
{"valex":"unit","version":1,"unit":"a.c","functions":[{"name":"main","static":false,"code":[["addi",3,0,7],["blr"]]}],
"variables":[{"name":"x","static":false,"writable":false,"align":4,"init":[["i32",5]]}],"externals":[]}
#image
entry 10010000
segment 10010000 5 c 38600007 4e800020 00000005
symbol 10010000 12 fff1 main
symbol 10010008 11 fff1 x
#1
no
rule 15 data-place
place a.c x 00000000
item 3
wanted 00000000
found 10010008"#,
    r#"a variable that is not aligned
#layout
area code 10010000 10011000
area data 10018000 10019000
#a.json
{"valex":"unit","version":1,"unit":"a.c","functions":[{"name":"main","static":false,"code":[["addi",3,0,7],["blr"]]}],
"variables":[{"name":"x","static":false,"writable":true,"align":4,"init":[["i32",5]]}],"externals":[]}
#image
entry 10010000
segment 10010000 5 8 38600007 4e800020
segment 10018000 6 5 0000000005
symbol 10010000 12 fff1 main
symbol 10018001 11 fff1 x
#1
no
rule 15 data-place
place a.c x 00000000
item 2
wanted 00000000
found 10018001"#,
    r#"a word like a nop among constants
#layout
area code 10010000 10011000
area const 10018000 10019000
#a.json
{"valex":"unit","version":1,"unit":"a.c","functions":[{"name":"main","static":false,"code":[["addi",3,0,7],["blr"]]}],
"variables":[],"externals":[]}
#image
entry 10010000
segment 10010000 5 8 38600007 4e800020
segment 10018000 4 4 60000000
symbol 10010000 12 fff1 main
#1
no
rule 17 stray
place - - 10018000
item 0
wanted 00000000
found 00000060"#,
    r#"externals
#layout
area code 10010000 10011000
area data 10018000 10019000
foreign 10020000 10020100
#a.json
{"valex":"unit","version":1,"unit":"a.c","functions":[{"name":"main","static":false,"code":[["allocframe",16],["mflr",0],["stw",0,8,1],["addis",3,0,["ha","x",0]],["addi",3,3,["lo","x",0]],["bl","putw"],["addi",3,1,12],["bl","putw"],
["imm",3,7],["bl","putw"],["imm",3,0],["lwz",0,8,1],["mtlr",0],["freeframe",16],["blr"]]}],
"variables":[{"name":"x","static":false,"writable":true,"align":4,"init":[["i32",0]]}],"externals":[{"name":"putw","sig":{"args":["w"],"result":"none"}}]}
#image
entry 10010000
segment 10010000 5 3c 9421fff0 7c0802a6 90010008 3c601002 38638000 4800ffed 3861000c 4800ffe5 38600007 4800ffdd 38600000 80010008 7c0803a6 38210010 4e800020
segment 10018000 6 4 00000000
symbol 10010000 12 fff1 main
symbol 10018000 11 fff1 x
symbol 10020000 10 fff1 putw
#0
yes
functions 1 bytes 60
tables 0 bytes 0
variables 1 bytes 4
externals 1
padding 0
foreign 0
loaded 64
10010000 1001003c function a.c main
10018000 10018004 variable a.c x
#run 0 100 0,0,0
assembly
call putw 10018000
call putw 2000ffec
call putw 00000007
ended 00000000
image
call putw 10018000
call putw 2000ffec
call putw 00000007
ended 00000000
same
#run 0 100 0,0
assembly
call putw 10018000
call putw 2000ffec
starved
image
call putw 10018000
call putw 2000ffec
starved
same
#run 0 3 0,0,0
assembly
going
image
call putw 10018000
call putw 2000ffec
call putw 00000007
going
same
#image
entry 10010000
segment 10010000 5 3c 9421fff0 7c0802a6 90010008 3c601002 38638000 4800ffed 3861000c 4800ffe5 38600008 4800ffdd 38600000 80010008 7c0803a6 38210010 4e800020
segment 10018000 6 4 00000000
symbol 10010000 12 fff1 main
symbol 10018000 11 fff1 x
symbol 10020000 10 fff1 putw
#1
no
rule 8 field
place a.c main 00000020
item 0
wanted 38600007
found 38600008
#run 7 100 0,0,0
assembly
call putw 10018000
call putw 2000ffec
call putw 00000007
ended 00000000
image
call putw 10018000
call putw 2000ffec
call putw 00000008
ended 00000000
differ 2
#run 0 100 0,0
assembly
call putw 10018000
call putw 2000ffec
starved
image
call putw 10018000
call putw 2000ffec
starved
same
#image
entry 10010000
segment 10010000 5 3c 9421fff0 7c0802a6 90010008 3c601002 38638000 4800ffed 3861000c 4800ffe5 38600007 4800ffdd 38600000 80010008 7c0803a6 38210010 4e800020
segment 10018000 6 4 00000000
symbol 10010000 12 fff1 main
symbol 10018000 11 fff1 x
symbol 10020002 10 fff1 putw
#1
no
rule 5 external-place
place a.c putw 00000000
item 1
wanted 00000000
found 10020002
#run 1 10
no
rule 5 external-place
place a.c putw 00000000
item 1
wanted 00000000
found 10020002
#image
entry 10010000
segment 10010000 5 3c 9421fff0 7c0802a6 90010008 3c601002 38638000 4800ffed 3861000c 4800ffe5 38600007 4800ffdd 38600000 80010008 7c0803a6 38210010 4e800020
segment 10018000 6 4 00000000
symbol 10010000 12 fff1 main
symbol 10018000 11 fff1 x
#1
no
rule 2 no-symbol
place a.c putw 00000000
item 0
wanted 00000001
found 00000000
#image
entry 10010000
segment 10010000 5 3c 9421fff0 7c0802a6 90010008 3c601002 38638000 4800ffed 3861000c 4800ffe9 38600007 4800ffdd 38600000 80010008 7c0803a6 38210010 4e800020
segment 10018000 6 4 00000000
symbol 10010000 12 fff1 main
symbol 10018000 11 fff1 x
symbol 10020000 10 fff1 putw
#1
no
rule 10 branch
place a.c main 0000001c
item 0
wanted 10020000
found 10020004
#run 7 100 0,0,0
assembly
call putw 10018000
call putw 2000ffec
call putw 00000007
ended 00000000
image
call putw 10018000
faulted unmapped
differ 1"#,
    r#"addresses and empty variables
#layout
area code 10010000 10011000
area data 10018000 10019000
#a.json
{"valex":"unit","version":1,"unit":"a.c","functions":[{"name":"main","static":false,"code":[["addi",3,0,7],["blr"]]}],
"variables":[{"name":"p","static":false,"writable":true,"align":4,"init":[["addr","main",0],["addr","p",4],["i16",-2],["i8",255]]},
{"name":"e","static":false,"writable":true,"align":1,"init":[]}],"externals":[]}
#image
entry 10010000
segment 10010000 5 8 38600007 4e800020
segment 10018000 6 b 10010000 10018004 fffe ff
symbol 10010000 12 fff1 main
symbol 10018000 11 fff1 p
symbol 10019000 11 fff1 e
#0
yes
functions 1 bytes 8
tables 0 bytes 0
variables 2 bytes 11
externals 0
padding 0
foreign 0
loaded 19
10010000 10010008 function a.c main
10018000 1001800b variable a.c p
#image
entry 10010000
segment 10010000 5 8 38600007 4e800020
segment 10018000 6 b 10010000 10018000 fffe ff
symbol 10010000 12 fff1 main
symbol 10018000 11 fff1 p
symbol 10019000 11 fff1 e
#1
no
rule 14 data-bytes
place a.c p 00000007
item 0
wanted 00000004
found 00000000
#image
entry 10010000
segment 10010000 5 8 38600007 4e800020
segment 10018000 6 b 10010000 10018004 fffe ff
symbol 10010000 12 fff1 main
symbol 10018000 11 fff1 p
symbol 10019004 11 fff1 e
#1
no
rule 15 data-place
place a.c e 00000000
item 3
wanted 00000000
found 10019004"#,
    r#"variables of too many bytes
#a.json
{"valex":"unit","version":1,"unit":"a.c","functions":[{"name":"main","static":false,"code":[["addi",3,0,7],["blr"]]}],
"variables":[{"name":"v0","static":false,"writable":true,"align":1,"init":[["space",16777216]]},
{"name":"v1","static":false,"writable":true,"align":1,"init":[["space",16777216]]},
{"name":"v2","static":false,"writable":true,"align":1,"init":[["space",16777216]]},
{"name":"v3","static":false,"writable":true,"align":1,"init":[["space",16777216]]},
{"name":"w","static":false,"writable":true,"align":1,"init":[["i8",0]]}],"externals":[]}
#image
entry 10010000
segment 10010000 5 8 38600007 4e800020
symbol 10010000 12 fff1 main
#3
refused a.json link 7 too-big w
#run 3 10
refused a.json link 7 too-big w"#,
];

/// In the form of `code_programs`.
pub fn data_programs() -> &'static [&'static str] {
    &DATA_PROGRAMS
}
