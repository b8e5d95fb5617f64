//! Programs of functions alone, and what `check` and `run` answer on their images.

static CODE_PROGRAMS: [&str; 18] = [
    r#"first path
#a.json
{"valex":"unit","version":1,"unit":"a.c","functions":[{"name":"main","static":false,"code":[["addi",3,0,7],["blr"]]}],
"variables":[],"externals":[]}
#image
entry 10010000
segment 10010000 5 8 38600007 4e800020
symbol 10010000 12 fff1 main
#0
yes
functions 1 bytes 8
tables 0 bytes 0
variables 0 bytes 0
externals 0
padding 0
foreign 0
loaded 8
10010000 10010008 function a.c main
#run 0 10
assembly
ended 00000007
image
ended 00000007
same
#run 0 0
assembly
going
image
going
same
#run 0 2
assembly
going
image
ended 00000007
same
#run 0 3
assembly
ended 00000007
image
ended 00000007
same
#image
entry 10010000
segment 10010000 5 8 38600008 4e800020
symbol 10010000 12 fff1 main
#1
no
rule 8 field
place a.c main 00000000
item 0
wanted 38600007
found 38600008
#run 7 10
assembly
ended 00000007
image
ended 00000008
differ 0
#image
entry 10010000
segment 10010000 5 8 3c600007 4e800020
symbol 10010000 12 fff1 main
#1
no
rule 7 opcode
place a.c main 00000000
item 0
wanted 38600007
found 3c600007
#image
entry 10010000
segment 10010000 5 8 38600007 4e800021
symbol 10010000 12 fff1 main
#1
no
rule 7 opcode
place a.c main 00000004
item 0
wanted 4e800020
found 4e800021
#run 7 10
assembly
ended 00000007
image
faulted opcode
differ 0
#image
entry 10010000
segment 10010000 5 8 38600007 00000000
symbol 10010000 12 fff1 main
#1
no
rule 7 opcode
place a.c main 00000004
item 0
wanted 4e800020
found 00000000
#image
entry 10010002
segment 10010000 5 8 38600007 4e800020
symbol 10010000 12 fff1 main
#1
no
rule 1 entry
place - - 10010002
item 0
wanted 00000000
found 10010002
#run 0 10
assembly
ended 00000007
image
ended 00000007
same
#image
entry 10010008
segment 10010000 5 8 38600007 4e800020
symbol 10010000 12 fff1 main
#1
no
rule 1 entry
place - - 10010008
item 0
wanted 00000000
found 10010008
#image
entry 10010000
segment 10010000 5 8 38600007 4e800020
symbol 10010000 12 fff1 mein
#1
no
rule 2 no-symbol
place a.c main 00000000
item 0
wanted 00000001
found 00000000
#run 1 10
no
rule 2 no-symbol
place a.c main 00000000
item 0
wanted 00000001
found 00000000
#image
entry 10010000
segment 10010000 5 8 38600007 4e800020
symbol 10010000 2 fff1 main
#1
no
rule 2 no-symbol
place a.c main 00000000
item 0
wanted 00000001
found 00000000
#image
entry 10010000
segment 10010000 5 8 38600007 4e800020
symbol 10010000 12 fff1 main
symbol 10010004 12 fff1 main
#1
no
rule 4 several-fit
place a.c main 00000000
item 0
wanted 00000001
found 00000002
#run 1 10
no
rule 4 several-fit
place a.c main 00000000
item 0
wanted 00000001
found 00000002
#image
entry 10010000
segment 10010000 5 8 38600007 4e800020
symbol 10010000 12 fff1 main
symbol 10010000 20 fff1 main
#0
yes
functions 1 bytes 8
tables 0 bytes 0
variables 0 bytes 0
externals 0
padding 0
foreign 0
loaded 8
10010000 10010008 function a.c main
#image
entry 10010000
segment 10010000 5 8 38600007 4e800020
symbol 10010002 12 fff1 main
#1
no
rule 6 place
place a.c main 00000000
item 1
wanted 00000000
found 10010002
#run 7 10
assembly
ended 00000007
image
faulted not-code
differ 0
#image
entry 10010000
segment 10010000 5 8 38600007 4e800020
segment 10011000 5 8 38600007 4e800020
symbol 10011000 12 fff1 main
#1
no
rule 6 place
place a.c main 00000000
item 2
wanted 00000000
found 10011000
#image
entry 10010000
segment 10010000 5 4 38600007
symbol 10010000 12 fff1 main
#1
no
rule 6 place
place a.c main 00000004
item 3
wanted 00000000
found 10010000
#run 7 10
assembly
ended 00000007
image
faulted unmapped
differ 0
#image
entry 10010000
segment 10010000 5 4 38600007
segment 10010004 4 4 4e800020
symbol 10010000 12 fff1 main
#1
no
rule 6 place
place a.c main 00000004
item 3
wanted 00000000
found 10010000
#run 7 10
assembly
ended 00000007
image
faulted not-code
differ 0
#image
entry 10010000
segment 10010000 5 10 38600007 4e800020 60000000 60000000
symbol 10010000 12 fff1 main
#0
yes
functions 1 bytes 8
tables 0 bytes 0
variables 0 bytes 0
externals 0
padding 8
foreign 0
loaded 16
10010000 10010008 function a.c main
10010008 10010010 padding
#image
entry 10010000
segment 10010000 5 c 38600007 4e800020 60000001
symbol 10010000 12 fff1 main
#1
no
rule 17 stray
place - - 10010008
item 0
wanted 00000000
found 00000060
#image
entry 10010000
segment 10010000 5 8 38600007 4e800020
segment 30000000 4 1 00
symbol 10010000 12 fff1 main
#1
no
rule 17 stray
place - - 30000000
item 0
wanted 00000000
found 00000000"#,
    r#"frame of 32768
#a.json
{"valex":"unit","version":1,"unit":"a.c","functions":[{"name":"main","static":false,"code":[["allocframe",32768],["imm",3,1],["freeframe",32768],["blr"]]}],
"variables":[],"externals":[]}
#image
entry 10010000
segment 10010000 5 10 94218000 38600001 80210000 4e800020
symbol 10010000 12 fff1 main
#0
yes
functions 1 bytes 16
tables 0 bytes 0
variables 0 bytes 0
externals 0
padding 0
foreign 0
loaded 16
10010000 10010010 function a.c main
#image
entry 10010000
segment 10010000 5 10 94218000 38600001 38218000 4e800020
symbol 10010000 12 fff1 main
#1
no
rule 7 opcode
place a.c main 00000008
item 0
wanted 80210000
found 38218000"#,
    r#"frame of 32776
#a.json
{"valex":"unit","version":1,"unit":"a.c","functions":[{"name":"main","static":false,"code":[["allocframe",32776],["imm",3,1],["freeframe",32776],["blr"]]}],
"variables":[],"externals":[]}
#image
entry 10010000
segment 10010000 5 18 3d80ffff 618c7ff8 7c21616e 38600001 80210000 4e800020
symbol 10010000 12 fff1 main
#0
yes
functions 1 bytes 24
tables 0 bytes 0
variables 0 bytes 0
externals 0
padding 0
foreign 0
loaded 24
10010000 10010018 function a.c main"#,
    r#"frame of 16
#a.json
{"valex":"unit","version":1,"unit":"a.c","functions":[{"name":"main","static":false,"code":[["allocframe",16],["imm",3,1],["freeframe",16],["blr"]]}],
"variables":[],"externals":[]}
#image
entry 10010000
segment 10010000 5 10 9421fff0 38600001 80210000 4e800020
symbol 10010000 12 fff1 main
#0
yes
functions 1 bytes 16
tables 0 bytes 0
variables 0 bytes 0
externals 0
padding 0
foreign 0
loaded 16
10010000 10010010 function a.c main
#image
entry 10010000
segment 10010000 5 10 9421fff0 38600001 38210010 4e800020
symbol 10010000 12 fff1 main
#0
yes
functions 1 bytes 16
tables 0 bytes 0
variables 0 bytes 0
externals 0
padding 0
foreign 0
loaded 16
10010000 10010010 function a.c main
#image
entry 10010000
segment 10010000 5 10 9421fff0 38600001 38210018 4e800020
symbol 10010000 12 fff1 main
#1
no
rule 8 field
place a.c main 00000008
item 0
wanted 38210010
found 38210018"#,
    r#"constant 305419896
#a.json
{"valex":"unit","version":1,"unit":"a.c","functions":[{"name":"main","static":false,"code":[["imm",3,305419896],["blr"]]}],
"variables":[],"externals":[]}
#image
entry 10010000
segment 10010000 5 c 3c601234 60635678 4e800020
symbol 10010000 12 fff1 main
#0
yes
functions 1 bytes 12
tables 0 bytes 0
variables 0 bytes 0
externals 0
padding 0
foreign 0
loaded 12
10010000 1001000c function a.c main"#,
    r#"constant -1
#a.json
{"valex":"unit","version":1,"unit":"a.c","functions":[{"name":"main","static":false,"code":[["imm",3,-1],["blr"]]}],
"variables":[],"externals":[]}
#image
entry 10010000
segment 10010000 5 8 3860ffff 4e800020
symbol 10010000 12 fff1 main
#0
yes
functions 1 bytes 8
tables 0 bytes 0
variables 0 bytes 0
externals 0
padding 0
foreign 0
loaded 8
10010000 10010008 function a.c main"#,
    r#"constant 65536
#a.json
{"valex":"unit","version":1,"unit":"a.c","functions":[{"name":"main","static":false,"code":[["imm",3,65536],["blr"]]}],
"variables":[],"externals":[]}
#image
entry 10010000
segment 10010000 5 8 3c600001 4e800020
symbol 10010000 12 fff1 main
#0
yes
functions 1 bytes 8
tables 0 bytes 0
variables 0 bytes 0
externals 0
padding 0
foreign 0
loaded 8
10010000 10010008 function a.c main"#,
    r#"constant 32768
#a.json
{"valex":"unit","version":1,"unit":"a.c","functions":[{"name":"main","static":false,"code":[["imm",3,32768],["blr"]]}],
"variables":[],"externals":[]}
#image
entry 10010000
segment 10010000 5 c 3c600000 60638000 4e800020
symbol 10010000 12 fff1 main
#0
yes
functions 1 bytes 12
tables 0 bytes 0
variables 0 bytes 0
externals 0
padding 0
foreign 0
loaded 12
10010000 1001000c function a.c main"#,
    r#"overlap
#a.json
{"valex":"unit","version":1,"unit":"a.c","functions":[{"name":"main","static":false,"code":[["addi",3,0,7],["blr"]]},
{"name":"f","static":false,"code":[["addi",3,0,7],["blr"]]}],
"variables":[],"externals":[]}
#image
entry 10010000
segment 10010000 5 8 38600007 4e800020
symbol 10010000 12 fff1 main
symbol 10010000 12 fff1 f
#1
no
rule 16 overlap
place a.c f 10010000
item 0
wanted 00000000
found 00000000
with function a.c main
#image
entry 10010000
segment 10010000 5 10 38600007 4e800020 38600007 4e800020
symbol 10010000 12 fff1 main
symbol 10010008 12 fff1 f
#0
yes
functions 2 bytes 16
tables 0 bytes 0
variables 0 bytes 0
externals 0
padding 0
foreign 0
loaded 16
10010000 10010008 function a.c main
10010008 10010010 function a.c f"#,
    r#"the address of an external
#layout
area code 10010000 10011000
foreign 10020000 10020100
#a.json
{"valex":"unit","version":1,"unit":"a.c","functions":[{"name":"main","static":false,"code":[["addis",3,0,["ha","putw",0]],["addi",3,3,["lo","putw",0]],["blr"]]}],
"variables":[],"externals":[{"name":"putw","sig":null}]}
#image
entry 10010000
segment 10010000 5 c 3c601002 38630000 4e800020
symbol 10010000 12 fff1 main
symbol 10020000 10 fff1 putw
#0
yes
functions 1 bytes 12
tables 0 bytes 0
variables 0 bytes 0
externals 1
padding 0
foreign 0
loaded 12
10010000 1001000c function a.c main
#run 0 10
assembly
undefined final
image
ended 10020000
same
#image
entry 10010000
segment 10010000 5 c 3c601002 38630000 4e800020
segment 10020000 5 4 4e800020
symbol 10010000 12 fff1 main
symbol 10020000 10 fff1 putw
#0
yes
functions 1 bytes 12
tables 0 bytes 0
variables 0 bytes 0
externals 1
padding 0
foreign 4
loaded 16
10010000 1001000c function a.c main
10020000 10020004 foreign
#image
entry 10010000
segment 10010000 5 c 3c601002 38630100 4e800020
symbol 10010000 12 fff1 main
symbol 10020100 10 fff1 putw
#1
no
rule 5 external-place
place a.c putw 00000000
item 2
wanted 00000000
found 10020100
#run 1 10
no
rule 5 external-place
place a.c putw 00000000
item 2
wanted 00000000
found 10020100"#,
    r#"two externals at one address
#layout
area code 10010000 10011000
foreign 10020000 10020100
#a.json
{"valex":"unit","version":1,"unit":"a.c","functions":[{"name":"main","static":false,"code":[["bl","e"],["bl","f"],["blr"]]}],
"variables":[],"externals":[{"name":"e","sig":null},{"name":"f","sig":null}]}
#image
entry 10010000
segment 10010000 5 c 48010001 4800fffd 4e800020
symbol 10010000 12 fff1 main
symbol 10020000 10 fff1 e
symbol 10020000 10 fff1 f
#1
no
rule 5 external-place
place a.c f 00000000
item 3
wanted 00000000
found 10020000
#run 1 10
no
rule 5 external-place
place a.c f 00000000
item 3
wanted 00000000
found 10020000"#,
    r#"a jump to another unit
#a.json
{"valex":"unit","version":1,"unit":"a.c","functions":[{"name":"main","static":false,"code":[["bs","g"]]}],
"variables":[],"externals":[{"name":"g","sig":null}]}
#b.json
{"valex":"unit","version":1,"unit":"b.c","functions":[{"name":"g","static":false,"code":[["addi",3,0,7],["blr"]]}],
"variables":[],"externals":[]}
#image
entry 10010000
segment 10010000 5 c 48000004 38600007 4e800020
symbol 10010000 12 fff1 main
symbol 10010004 12 fff1 g
#0
yes
functions 2 bytes 12
tables 0 bytes 0
variables 0 bytes 0
externals 0
padding 0
foreign 0
loaded 12
10010000 10010004 function a.c main
10010004 1001000c function b.c g
#run 0 10
assembly
ended 00000007
image
ended 00000007
same
#image
entry 10010000
segment 10010000 5 c 48000008 38600007 4e800020
symbol 10010000 12 fff1 main
symbol 10010004 12 fff1 g
#1
no
rule 10 branch
place a.c main 00000000
item 0
wanted 10010004
found 10010008
#run 7 10
assembly
ended 00000007
image
ended a5a5a5a5
differ 0"#,
    r#"static functions of one name
#a.json
{"valex":"unit","version":1,"unit":"a.c","functions":[{"name":"main","static":false,"code":[["bs","h"]]},
{"name":"h","static":true,"code":[["addi",3,0,1],["blr"]]}],
"variables":[],"externals":[]}
#b.json
{"valex":"unit","version":1,"unit":"b.c","functions":[{"name":"h","static":true,"code":[["addi",3,0,2],["blr"]]},
{"name":"g","static":false,"code":[["bs","h"]]}],
"variables":[],"externals":[]}
#image
entry 10010000
segment 10010000 5 18 48000004 38600001 4e800020 38600002 4e800020 4bfffff8
symbol 10010000 12 fff1 main
symbol 10010004 2 fff1 h
symbol 1001000c 2 fff1 h
symbol 10010014 12 fff1 g
#0
yes
functions 4 bytes 24
tables 0 bytes 0
variables 0 bytes 0
externals 0
padding 0
foreign 0
loaded 24
10010000 10010004 function a.c main
10010004 1001000c function a.c h
1001000c 10010014 function b.c h
10010014 10010018 function b.c g
#run 0 10
assembly
ended 00000001
image
ended 00000001
same
#image
entry 10010000
segment 10010000 5 18 48000004 38600001 4e800020 38600002 4e800020 4bffffec
symbol 10010000 12 fff1 main
symbol 10010004 2 fff1 h
symbol 1001000c 2 fff1 h
symbol 10010014 12 fff1 g
#1
no
rule 3 none-fits
place b.c h 00000000
item 0
wanted 00000001
found 00000000
#run 1 10
no
rule 3 none-fits
place b.c h 00000000
item 0
wanted 00000001
found 00000000"#,
    r#"units of one name
#a.json
{"valex":"unit","version":1,"unit":"a.c","functions":[{"name":"main","static":false,"code":[["addi",3,0,7],["blr"]]}],
"variables":[],"externals":[]}
#b.json
{"valex":"unit","version":1,"unit":"a.c","functions":[{"name":"main","static":false,"code":[["addi",3,0,7],["blr"]]}],
"variables":[],"externals":[]}
#image
entry 10010000
segment 10010000 5 8 38600007 4e800020
symbol 10010000 12 fff1 main
#3
refused b.json link 1 unit-twice a.c
#run 3 10
refused b.json link 1 unit-twice a.c"#,
    r#"a function defined twice
#a.json
{"valex":"unit","version":1,"unit":"a.c","functions":[{"name":"main","static":false,"code":[["addi",3,0,7],["blr"]]}],
"variables":[],"externals":[]}
#b.json
{"valex":"unit","version":1,"unit":"b.c","functions":[{"name":"main","static":false,"code":[["addi",3,0,7],["blr"]]}],
"variables":[],"externals":[]}
#image
entry 10010000
segment 10010000 5 8 38600007 4e800020
symbol 10010000 12 fff1 main
#3
refused b.json link 2 defined-twice main"#,
    r#"an undeclared name
#a.json
{"valex":"unit","version":1,"unit":"a.c","functions":[{"name":"main","static":false,"code":[["bl","f"],["addi",3,0,7],["blr"]]}],
"variables":[],"externals":[]}
#image
entry 10010000
segment 10010000 5 8 38600007 4e800020
symbol 10010000 12 fff1 main
#3
refused a.json link 3 undeclared f
#run 3 10
refused a.json link 3 undeclared f"#,
    r#"two signatures
#a.json
{"valex":"unit","version":1,"unit":"a.c","functions":[{"name":"main","static":false,"code":[["bl","f"],["blr"]]}],
"variables":[],"externals":[{"name":"f","sig":null}]}
#b.json
{"valex":"unit","version":1,"unit":"b.c","functions":[{"name":"g","static":false,"code":[["addi",3,0,7],["blr"]]}],
"variables":[],"externals":[{"name":"f","sig":{"args":[],"result":"none"}}]}
#image
entry 10010000
segment 10010000 5 8 38600007 4e800020
symbol 10010000 12 fff1 main
#3
refused b.json link 4 sig-differs f"#,
    r#"a static entry
#a.json
{"valex":"unit","version":1,"unit":"a.c","functions":[{"name":"main","static":true,"code":[["addi",3,0,7],["blr"]]}],
"variables":[],"externals":[]}
#image
entry 10010000
segment 10010000 5 8 38600007 4e800020
symbol 10010000 12 fff1 main
#3
refused layout.json link 5 no-entry main
#run 3 10
refused layout.json link 5 no-entry main"#,
];

/// Each has a name, and then sections that begin with a line of their kind: the layout where it is another than that of one area, and
/// the units and images; `test_images` reads layouts and images. Behind each image stand the status and the text of what `check`
/// answers, and those of `run` with the steps and the replies.
pub fn code_programs() -> &'static [&'static str] {
    &CODE_PROGRAMS
}
