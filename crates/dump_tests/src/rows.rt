//! Texts beside what the readers answer: a reason of the profile, the path, and the number of the shape or the limit. They are handed
//! out by functions without a contract, so that the proofs of the tests do not read them.

/// What a text of a row is.
#[derive(Clone, Copy, PartialEq)]
pub enum Place {
    /// A whole text of a unit.
    Text,
    /// The lists of a unit.
    Lists,
    /// The items of one list of a unit.
    Functions,
    Variables,
    Externals,
    /// The code of one function.
    Code,
    /// An instruction that a label follows, of which the answer tells what is read.
    Instruction,
    /// The labels of a jump table.
    Labels,
    /// The items of one variable.
    Init,
    /// The signature of one external in version 1 and in version 2.
    Signature1,
    Signature2,
    /// A signature in version 2, of which the answer tells the buffers.
    Buffers,
    /// A whole text of replies.
    ReplyText,
    /// The items of replies in version 1 and in version 2.
    Replies1,
    Replies2,
    /// Items of replies in version 2, of which the answer tells what is read.
    Values,
    /// The digits of one fill.
    Fill,
}

/// Whole texts of units.
static UNITS: [(&str, &str); 18] = [
    ("{", "1 not-json"),
    ("[]", "3 wrong-kind "),
    ("{}", "2 missing /valex"),
    (r#"{"valex":1}"#, "3 wrong-kind /valex"),
    (r#"{"valex":"layout"}"#, "5 unknown-word /valex"),
    (r#"{"valex":"unit"}"#, "2 missing /version"),
    (r#"{"valex":"unit","version":3}"#, "6 version /version"),
    (r#"{"valex":"unit","version":0}"#, "6 version /version"),
    (r#"{"valex":"unit","version":-1}"#, "6 version /version"),
    (r#"{"valex":"unit","version":2}"#, "2 missing /unit"),
    (
        r#"{"version":3,"version":1,"valex":"unit"}"#,
        "2 missing /unit",
    ),
    (r#"{"valex":"unit","version":1.0}"#, "3 wrong-kind /version"),
    (r#"{"valex":"unit","version":-0}"#, "3 wrong-kind /version"),
    (
        r#"{"valex":"unit","version":1,"unit":"a b"}"#,
        "4 out-of-range /unit",
    ),
    (
        r#"{"valex":"unit","version":1,"unit":"a.c","functions":{}}"#,
        "3 wrong-kind /functions",
    ),
    (
        r#"{"valex":"unit","version":1,"unit":"a.c","functions":[{"name":"main","static":false,"code":[["addi",3,0,7],["blr"]]}],"variables":[]}"#,
        "2 missing /externals",
    ),
    (
        r#"{"valex":"unit","version":1,"unit":"a.c","functions":[{"name":"main","static":false,"code":[["addi",3,0,7],["blr"]]}],"variables":[],"externals":[],"other":[]}"#,
        "unit",
    ),
    (
        r#"{"valex":"unit","version":1,"unit":"a.c","functions":[],"variables":[],"externals":[],"other":1e999}"#,
        "1 not-json",
    ),
];

static CODES: [(&str, &str); 80] = [
    ("", "7 shape /functions/0 5"),
    (
        r#"["label",1],["cfi",1,[]],["annot",null]"#,
        "7 shape /functions/0 5",
    ),
    (r#"["addi",1,0,7]"#, "7 shape /functions/0/code/0 1"),
    (r#"["blr"],["b",7]"#, "7 shape /functions/0/code/1 2"),
    (
        r#"["blr"],["label",7],["label",7]"#,
        "7 shape /functions/0/code/2 3",
    ),
    (r#"["allocframe",20]"#, "7 shape /functions/0/code/0 4"),
    (
        r#"["lwz",3,["sda","x",0],4]"#,
        "7 shape /functions/0/code/0 6",
    ),
    (
        r#"["addi",1,0,7],["blr",1]"#,
        "4 out-of-range /functions/0/code/1",
    ),
    (
        r#"["fadd",1,2,3],["blr"]"#,
        "8 refused /functions/0/code/0/0",
    ),
    (r#"["ld"]"#, "8 refused /functions/0/code/0/0"),
    (r#"["nop"]"#, "5 unknown-word /functions/0/code/0/0"),
    (r#"["Blr"]"#, "5 unknown-word /functions/0/code/0/0"),
    ("[]", "4 out-of-range /functions/0/code/0"),
    ("7", "3 wrong-kind /functions/0/code/0"),
    ("[7]", "3 wrong-kind /functions/0/code/0/0"),
    (r#"["addi",32,0,7,1]"#, "4 out-of-range /functions/0/code/0"),
    (r#"["addi",32,0,7]"#, "4 out-of-range /functions/0/code/0/1"),
    (r#"["addi",3,"0",7]"#, "3 wrong-kind /functions/0/code/0/2"),
    (
        r#"["addi",3,0,32768]"#,
        "4 out-of-range /functions/0/code/0/3",
    ),
    (r#"["ori",3,0,-1]"#, "4 out-of-range /functions/0/code/0/3"),
    (
        r#"["addi",3,0,["ha","x",0]]"#,
        "5 unknown-word /functions/0/code/0/3/0",
    ),
    (
        r#"["addis",3,0,["lo","x",0]]"#,
        "5 unknown-word /functions/0/code/0/3/0",
    ),
    (
        r#"["addic",3,0,["lo","x",0]]"#,
        "3 wrong-kind /functions/0/code/0/3",
    ),
    (r#"["addi",3,0,[]]"#, "4 out-of-range /functions/0/code/0/3"),
    (
        r#"["addi",3,0,[1,"x",0]]"#,
        "3 wrong-kind /functions/0/code/0/3/0",
    ),
    (
        r#"["addi",3,0,["lo","x"]]"#,
        "4 out-of-range /functions/0/code/0/3",
    ),
    (
        r#"["addi",3,0,["lo","",0]]"#,
        "4 out-of-range /functions/0/code/0/3/1",
    ),
    (
        r#"["stw",3,["lo","x",2147483648],4]"#,
        "4 out-of-range /functions/0/code/0/2/2",
    ),
    (r#"["cmpwi",8,3,0]"#, "4 out-of-range /functions/0/code/0/1"),
    (
        r#"["cmplwi",0,3,-1]"#,
        "4 out-of-range /functions/0/code/0/3",
    ),
    (
        r#"["rlwinm",3,4,0,0,32]"#,
        "4 out-of-range /functions/0/code/0/5",
    ),
    (
        r#"["b",4294967296]"#,
        "4 out-of-range /functions/0/code/0/1",
    ),
    (
        r#"["b",18446744073709551616]"#,
        "3 wrong-kind /functions/0/code/0/1",
    ),
    (r#"["bl",7]"#, "3 wrong-kind /functions/0/code/0/1"),
    (
        r#"["imm",3,4294967296]"#,
        "4 out-of-range /functions/0/code/0/2",
    ),
    (r#"["bt",32,1]"#, "4 out-of-range /functions/0/code/0/1"),
    (r#"["btbl",3,[]]"#, "4 out-of-range /functions/0/code/0/2"),
    (r#"["mulli",3,4,"1"]"#, "3 wrong-kind /functions/0/code/0/3"),
    (r#"["addis",3,4,1.5]"#, "3 wrong-kind /functions/0/code/0/3"),
    (r#"["ori",3,4,true]"#, "3 wrong-kind /functions/0/code/0/3"),
    (r#"["srawi",3,4,[1]]"#, "3 wrong-kind /functions/0/code/0/3"),
    (
        r#"["rlwimi",3,4,"1",0,0]"#,
        "3 wrong-kind /functions/0/code/0/3",
    ),
    (r#"["lwz",3,"0",4]"#, "3 wrong-kind /functions/0/code/0/2"),
    (r#"["stb",3,null,4]"#, "3 wrong-kind /functions/0/code/0/2"),
    (
        r#"["cmpwi",0,3,["lo","x",0]]"#,
        "3 wrong-kind /functions/0/code/0/3",
    ),
    (r#"["cmplwi",0,3,{}]"#, "3 wrong-kind /functions/0/code/0/3"),
    (
        r#"["allocframe","16"]"#,
        "3 wrong-kind /functions/0/code/0/1",
    ),
    (r#"["freeframe",-0]"#, "3 wrong-kind /functions/0/code/0/1"),
    (
        r#"["imm",3,["lo","x",0]]"#,
        "3 wrong-kind /functions/0/code/0/2",
    ),
    (r#"["bdnz","1"]"#, "3 wrong-kind /functions/0/code/0/1"),
    (r#"["bs",["x"]]"#, "3 wrong-kind /functions/0/code/0/1"),
    (r#"["bt",0,"1"]"#, "3 wrong-kind /functions/0/code/0/2"),
    (r#"["btbl",3,1]"#, "3 wrong-kind /functions/0/code/0/2"),
    (
        r#"["btbl",3,["1"]]"#,
        "3 wrong-kind /functions/0/code/0/2/0",
    ),
    (
        r#"["mfcrbit",3,null]"#,
        "3 wrong-kind /functions/0/code/0/2",
    ),
    (r#"["label",1e0]"#, "3 wrong-kind /functions/0/code/0/1"),
    (
        r#"["lwz",3,["ha","x",0],4]"#,
        "5 unknown-word /functions/0/code/0/2/0",
    ),
    (r#"["add",32,4,5]"#, "4 out-of-range /functions/0/code/0/1"),
    (r#"["add",3,32,5]"#, "4 out-of-range /functions/0/code/0/2"),
    (r#"["add",3,4,32]"#, "4 out-of-range /functions/0/code/0/3"),
    (r#"["neg",32,4]"#, "4 out-of-range /functions/0/code/0/1"),
    (r#"["extsb",3,32]"#, "4 out-of-range /functions/0/code/0/2"),
    (r#"["sth",3,0,32]"#, "4 out-of-range /functions/0/code/0/3"),
    (r#"["lwzx",3,4,32]"#, "4 out-of-range /functions/0/code/0/3"),
    (r#"["stwx",32,4,5]"#, "4 out-of-range /functions/0/code/0/1"),
    (r#"["cmpw",0,32,5]"#, "4 out-of-range /functions/0/code/0/2"),
    (r#"["cmpw",8,4,5]"#, "4 out-of-range /functions/0/code/0/1"),
    (
        r#"["cmplwi",0,32,5]"#,
        "4 out-of-range /functions/0/code/0/2",
    ),
    (r#"["mtlr",32]"#, "4 out-of-range /functions/0/code/0/1"),
    (
        r#"["srawi",3,4,32]"#,
        "4 out-of-range /functions/0/code/0/3",
    ),
    (
        r#"["rlwimi",3,4,32,0,0]"#,
        "4 out-of-range /functions/0/code/0/3",
    ),
    (
        r#"["rlwimi",3,4,0,32,0]"#,
        "4 out-of-range /functions/0/code/0/4",
    ),
    (r#"["cror",32,0,0]"#, "4 out-of-range /functions/0/code/0/1"),
    (r#"["cror",0,32,0]"#, "4 out-of-range /functions/0/code/0/2"),
    (r#"["cror",0,0,32]"#, "4 out-of-range /functions/0/code/0/3"),
    (r#"["bf",32,1]"#, "4 out-of-range /functions/0/code/0/1"),
    (r#"["imm",32,0]"#, "4 out-of-range /functions/0/code/0/1"),
    (r#"["btbl",32,[1]]"#, "4 out-of-range /functions/0/code/0/1"),
    (
        r#"["mfcrbit",32,0]"#,
        "4 out-of-range /functions/0/code/0/1",
    ),
    (
        r#"["mfcrbit",3,32]"#,
        "4 out-of-range /functions/0/code/0/2",
    ),
];

static INITS: [(&str, &str); 27] = [
    (
        r#"["i8",-128],["i8",255],["i16",-32768],["i16",65535],["i32",-2147483648],["i32",4294967295],["bytes","0aF9"],["bytes",""],["space",0],["addr","x",-4]"#,
        "unit",
    ),
    (r#"["i8",256]"#, "4 out-of-range /variables/0/init/0/1"),
    (r#"["i8",-129]"#, "4 out-of-range /variables/0/init/0/1"),
    (r#"["i16",65536]"#, "4 out-of-range /variables/0/init/0/1"),
    (r#"["i24",1]"#, "5 unknown-word /variables/0/init/0/0"),
    (r#"["f32",1]"#, "8 refused /variables/0/init/0/0"),
    (r#"["i64"]"#, "8 refused /variables/0/init/0/0"),
    (r#"["bytes","0a0"]"#, "4 out-of-range /variables/0/init/0/1"),
    (r#"["bytes","0g"]"#, "4 out-of-range /variables/0/init/0/1"),
    (r#"["addr","x"]"#, "4 out-of-range /variables/0/init/0"),
    (
        r#"["space",16777217]"#,
        "4 out-of-range /variables/0/init/0/1",
    ),
    (r#"["space",16777216]"#, "unit"),
    (
        r#"["space",16777216],["i8",1]"#,
        "9 limit /variables/0/init 16777216",
    ),
    (
        r#"["space",16777216],["i8",1],["i8",256]"#,
        "4 out-of-range /variables/0/init/2/1",
    ),
    ("[]", "4 out-of-range /variables/0/init/0"),
    ("7", "3 wrong-kind /variables/0/init/0"),
    ("[1]", "3 wrong-kind /variables/0/init/0/0"),
    (r#"["I8",1]"#, "5 unknown-word /variables/0/init/0/0"),
    (r#"["word",1]"#, "5 unknown-word /variables/0/init/0/0"),
    (r#"["i8"]"#, "4 out-of-range /variables/0/init/0"),
    (r#"["i16",1,2]"#, "4 out-of-range /variables/0/init/0"),
    (r#"["i32","1"]"#, "3 wrong-kind /variables/0/init/0/1"),
    (
        r#"["i32",4294967296]"#,
        "4 out-of-range /variables/0/init/0/1",
    ),
    (r#"["bytes",0]"#, "3 wrong-kind /variables/0/init/0/1"),
    (r#"["space",-1]"#, "4 out-of-range /variables/0/init/0/1"),
    (r#"["addr",1,0]"#, "3 wrong-kind /variables/0/init/0/1"),
    (
        r#"["addr","x",2147483648]"#,
        "4 out-of-range /variables/0/init/0/2",
    ),
];

static SIGNATURES_1: [(&str, &str); 8] = [
    ("null", "unit"),
    ("7", "3 wrong-kind /externals/0/sig"),
    ("{}", "2 missing /externals/0/sig/args"),
    (r#"{"args":["w","l"],"result":"none"}"#, "unit"),
    (
        r#"{"args":["x"],"result":"none"}"#,
        "5 unknown-word /externals/0/sig/args/0",
    ),
    (
        r#"{"args":["w"],"result":"x"}"#,
        "5 unknown-word /externals/0/sig/result",
    ),
    (
        r#"{"args":["l","l","l","l","w"]}"#,
        "7 shape /externals/0/sig/args 7",
    ),
    (r#"{"args":["w"],"result":"none","buffers":7}"#, "unit"),
];

static SIGNATURES_2: [(&str, &str); 30] = [
    ("null", "unit"),
    (
        r#"{"args":["w"],"result":"none"}"#,
        "2 missing /externals/0/sig/buffers",
    ),
    (
        r#"{"args":["l","l","l","l","w"]}"#,
        "7 shape /externals/0/sig/args 7",
    ),
    (
        r#"{"args":["w"],"result":"x"}"#,
        "5 unknown-word /externals/0/sig/result",
    ),
    (
        r#"{"args":["w"],"result":"none","buffers":7}"#,
        "3 wrong-kind /externals/0/sig/buffers",
    ),
    (r#"{"args":["w"],"result":"none","buffers":[]}"#, "unit"),
    (
        r#"{"args":["w"],"result":"none","buffers":[7]}"#,
        "3 wrong-kind /externals/0/sig/buffers/0",
    ),
    (
        r#"{"args":["w"],"result":"none","buffers":[[]]}"#,
        "4 out-of-range /externals/0/sig/buffers/0",
    ),
    (
        r#"{"args":["w"],"result":"none","buffers":[[1,0,4]]}"#,
        "3 wrong-kind /externals/0/sig/buffers/0/0",
    ),
    (
        r#"{"args":["w"],"result":"none","buffers":[["inout",0,4]]}"#,
        "5 unknown-word /externals/0/sig/buffers/0/0",
    ),
    (
        r#"{"args":["w"],"result":"none","buffers":[["in",0]]}"#,
        "4 out-of-range /externals/0/sig/buffers/0",
    ),
    (
        r#"{"args":["w"],"result":"none","buffers":[["in",0,4,4]]}"#,
        "4 out-of-range /externals/0/sig/buffers/0",
    ),
    (
        r#"{"args":["w"],"result":"none","buffers":[["in",256,4]]}"#,
        "4 out-of-range /externals/0/sig/buffers/0/1",
    ),
    (
        r#"{"args":["w"],"result":"none","buffers":[["in","0",4]]}"#,
        "3 wrong-kind /externals/0/sig/buffers/0/1",
    ),
    (
        r#"{"args":["w"],"result":"none","buffers":[["in",0,65537]]}"#,
        "4 out-of-range /externals/0/sig/buffers/0/2",
    ),
    (
        r#"{"args":["w"],"result":"none","buffers":[["in",0,-1]]}"#,
        "4 out-of-range /externals/0/sig/buffers/0/2",
    ),
    (
        r#"{"args":["w"],"result":"none","buffers":[["in",0,"4"]]}"#,
        "3 wrong-kind /externals/0/sig/buffers/0/2",
    ),
    (
        r#"{"args":["w"],"result":"none","buffers":[["in",0,[]]]}"#,
        "4 out-of-range /externals/0/sig/buffers/0/2",
    ),
    (
        r#"{"args":["w"],"result":"none","buffers":[["in",0,["arg"]]]}"#,
        "4 out-of-range /externals/0/sig/buffers/0/2",
    ),
    (
        r#"{"args":["w"],"result":"none","buffers":[["in",0,["len",0]]]}"#,
        "5 unknown-word /externals/0/sig/buffers/0/2/0",
    ),
    (
        r#"{"args":["w"],"result":"none","buffers":[["in",0,[0,0]]]}"#,
        "3 wrong-kind /externals/0/sig/buffers/0/2/0",
    ),
    (
        r#"{"args":["w"],"result":"none","buffers":[["in",0,["arg",256]]]}"#,
        "4 out-of-range /externals/0/sig/buffers/0/2/1",
    ),
    (
        r#"{"args":["w"],"result":"none","buffers":[["in",0,1],["in",0,1],["in",0,1],["in",0,1],["in",0,1],["in",0,1],["in",0,1],["in",0,1]]}"#,
        "unit",
    ),
    (
        r#"{"args":["w"],"result":"none","buffers":[["in",0,1],["in",0,1],["in",0,1],["in",0,1],["in",0,1],["in",0,1],["in",0,1],["in",0,1],7]}"#,
        "9 limit /externals/0/sig/buffers 8",
    ),
    (
        r#"{"args":["w","l"],"result":"none","buffers":[["in",1,4]]}"#,
        "7 shape /externals/0/sig/buffers/0 8",
    ),
    (
        r#"{"args":["w","l"],"result":"none","buffers":[["in",0,["arg",1]]]}"#,
        "7 shape /externals/0/sig/buffers/0 8",
    ),
    (
        r#"{"args":["w"],"result":"none","buffers":[["in",1,4]]}"#,
        "7 shape /externals/0/sig/buffers/0 8",
    ),
    (
        r#"{"args":["w"],"result":"none","buffers":[["in",0,65536],["out",0,["arg",0]],["out",0,["arg",1]]]}"#,
        "7 shape /externals/0/sig/buffers/2 8",
    ),
    (
        r#"{"args":["w"],"result":"none","buffers":[["in",9,4],["in",0,65537]]}"#,
        "4 out-of-range /externals/0/sig/buffers/1/2",
    ),
    (
        r#"{"args":["w","w"],"result":"none","buffers":[["in",0,0],["out",1,["arg",0]]]}"#,
        "unit",
    ),
];

static LISTS: [(&str, &str); 21] = [
    (
        r#""functions":[{"name":"f","static":false,"code":[["blr"]]}],"variables":[{"name":"v","static":true,"writable":false,"align":16,"init":[]}],"externals":[{"name":"e","sig":null}]"#,
        "unit",
    ),
    (
        r#""functions":[7],"variables":[{"name":"v","static":true,"writable":false,"align":16,"init":[]}],"externals":[]"#,
        "3 wrong-kind /functions/0",
    ),
    (
        r#""functions":[{}],"variables":[{"name":"v","static":true,"writable":false,"align":16,"init":[]}],"externals":[]"#,
        "2 missing /functions/0/name",
    ),
    (
        r#""functions":[{"name":"f","static":0}],"variables":[],"externals":[]"#,
        "3 wrong-kind /functions/0/static",
    ),
    (
        r#""functions":[{"name":"f","static":false,"code":[]},7],"variables":[],"externals":[]"#,
        "7 shape /functions/0 5",
    ),
    (
        r#""functions":[{"name":"f","static":false,"code":[["blr"]]}],"variables":[{"name":"f"},{}],"externals":[]"#,
        "4 out-of-range /variables/0/name",
    ),
    (
        r#""functions":[{"name":"f","static":false,"code":[["blr"]]}],"variables":[{"name":"v","static":true,"writable":false,"align":16,"init":[]}],"externals":[{"name":"f"},{}]"#,
        "4 out-of-range /externals/0/name",
    ),
    (
        r#""functions":[{"name":"f","static":false,"code":[["blr"]]}],"variables":[{"name":"v","static":true,"writable":false,"align":16,"init":[]}],"externals":[{"name":"v"}]"#,
        "4 out-of-range /externals/0/name",
    ),
    (
        r#""functions":[{"name":"f","static":false,"code":[["blr"]]},{"name":"f"},{}],"variables":[],"externals":[]"#,
        "4 out-of-range /functions/1/name",
    ),
    (
        r#""functions":[],"variables":[{"name":"v","static":true}],"externals":[]"#,
        "2 missing /variables/0/writable",
    ),
    (
        r#""functions":[],"variables":[{"name":"v","static":true,"writable":false,"align":1,"init":[]}],"externals":[]"#,
        "unit",
    ),
    (
        r#""functions":[],"variables":[{"name":"v","static":true,"writable":false,"align":2,"init":[]}],"externals":[]"#,
        "unit",
    ),
    (
        r#""functions":[],"variables":[{"name":"v","static":true,"writable":false,"align":8,"init":[]}],"externals":[]"#,
        "unit",
    ),
    (
        r#""functions":[],"variables":[{"name":"v","static":true,"writable":false,"align":0,"init":[]}],"externals":[]"#,
        "4 out-of-range /variables/0/align",
    ),
    (
        r#""functions":[],"variables":[{"name":"v","static":true,"writable":false,"align":3,"init":[]}],"externals":[]"#,
        "4 out-of-range /variables/0/align",
    ),
    (
        r#""functions":[],"variables":[{"name":"v","static":true,"writable":false,"align":17,"init":[]}],"externals":[]"#,
        "4 out-of-range /variables/0/align",
    ),
    (
        r#""functions":[],"variables":[{"name":"v","static":true,"writable":false,"align":"4","init":[]}],"externals":[]"#,
        "3 wrong-kind /variables/0/align",
    ),
    (
        r#""functions":[],"variables":[],"externals":[{"name":"nnnnnnnnnnnnnnnnnnnnnnnnnnnnnnnnnnnnnnnnnnnnnnnnnnnnnnnnnnnnnnnnnnnnnnnnnnnnnnnnnnnnnnnnnnnnnnnnnnnnnnnnnnnnnnnnnnnnnnnnnnnnnnnnnnnnnnnnnnnnnnnnnnnnnnnnnnnnnnnnnnnnnnnnnnnnnnnnnnnnnnnnnnnnnnnnnnnnnnnnnnnnnnnnnnnnnnnnnnnnnnnnnnnnnnnnnnnnnnnnnnnnnnnnnnnnnnn","sig":null}]"#,
        "unit",
    ),
    (
        r#""functions":[],"variables":[],"externals":[{"name":"nnnnnnnnnnnnnnnnnnnnnnnnnnnnnnnnnnnnnnnnnnnnnnnnnnnnnnnnnnnnnnnnnnnnnnnnnnnnnnnnnnnnnnnnnnnnnnnnnnnnnnnnnnnnnnnnnnnnnnnnnnnnnnnnnnnnnnnnnnnnnnnnnnnnnnnnnnnnnnnnnnnnnnnnnnnnnnnnnnnnnnnnnnnnnnnnnnnnnnnnnnnnnnnnnnnnnnnnnnnnnnnnnnnnnnnnnnnnnnnnnnnnnnnnnnnnnnnn","sig":null}]"#,
        "4 out-of-range /externals/0/name",
    ),
    (
        r#""functions":[],"variables":[],"externals":[{"name":""}]"#,
        "4 out-of-range /externals/0/name",
    ),
    (
        r#""functions":[],"variables":[],"externals":[{"name":"e"}]"#,
        "2 missing /externals/0/sig",
    ),
];

static INSTRUCTIONS: [(&str, &str); 26] = [
    (
        r#"["addi",3,0,7]"#,
        "Plain(AluImm(Addi, Reg(3), Reg(0), Int(7)))",
    ),
    (
        r#"["andis.",3,4,65535]"#,
        "Plain(LogImm(AndisDot, Reg(3), Reg(4), 65535))",
    ),
    (
        r#"["divw",3,4,5]"#,
        "Plain(Alu(Divw, Reg(3), Reg(4), Reg(5)))",
    ),
    (r#"["addze",3,4]"#, "Plain(Alu2(Addze, Reg(3), Reg(4)))"),
    (
        r#"["and.",3,4,5]"#,
        "Plain(Log(AndDot, Reg(3), Reg(4), Reg(5)))",
    ),
    (r#"["extsb",3,4]"#, "Plain(Log2(Extsb, Reg(3), Reg(4)))"),
    (r#"["srawi",3,4,31]"#, "Plain(Srawi(Reg(3), Reg(4), 31))"),
    (
        r#"["rlwinm",3,4,5,6,7]"#,
        "Plain(Rot(Rlwinm, Reg(3), Reg(4), 5, 6, 7))",
    ),
    (
        r#"["lha",3,-4,5]"#,
        "Plain(Load(Lha, Reg(3), Int(-4), Reg(5)))",
    ),
    (
        r#"["sth",3,8,5]"#,
        "Plain(Store(Sth, Reg(3), Int(8), Reg(5)))",
    ),
    (
        r#"["lhbrx",3,4,5]"#,
        "Plain(LoadX(Lhbrx, Reg(3), Reg(4), Reg(5)))",
    ),
    (
        r#"["sthbrx",3,4,5]"#,
        "Plain(StoreX(Sthbrx, Reg(3), Reg(4), Reg(5)))",
    ),
    (r#"["cmplw",7,4,5]"#, "Plain(Cmp(Cmplw, 7, Reg(4), Reg(5)))"),
    (
        r#"["cmplwi",7,4,65535]"#,
        "Plain(CmpImm(Cmplwi, 7, Reg(4), 65535))",
    ),
    (r#"["cror",1,2,3]"#, "Plain(CrBit(Cror, 1, 2, 3))"),
    (r#"["mtctr",3]"#, "Plain(Move(Mtctr, Reg(3)))"),
    (r#"["isync"]"#, "Plain(Bar(Isync))"),
    (r#"["bdnz",1]"#, "Plain(Jump(Bdnz(1)))"),
    (r#"["trap"]"#, "Plain(Jump(Trap))"),
    (r#"["freeframe",16]"#, "FreeFrame(16)"),
    (r#"["imm",3,-1]"#, "Imm(Reg(3), 4294967295)"),
    (r#"["bf",31,1]"#, "Bf(31, 1)"),
    (
        r#"["btbl",3,[1,1]]"#,
        "Btbl(Reg(3), Listed { kept: [1, 1] })",
    ),
    (r#"["mfcrbit",3,30]"#, "MfcrBit(Reg(3), 30)"),
    (r#"["label",4294967295]"#, "Label(4294967295)"),
    (r#"["annot","x",1.5]"#, "Annot"),
];

static BUFFERS: [(&str, &str); 1] = [(
    r#"{"args":["w","l","w"],"result":"none","buffers":[["in",0,["arg",2]],["out",2,65536]]}"#,
    "Listed { kept: [Buffer { fills: false, arg: 0, size: Arg(2) }, Buffer { fills: true, arg: 2, size: Fixed(65536) }] }",
)];

static REPLY_TEXTS: [(&str, &str); 8] = [
    ("{", "1 not-json"),
    (r#"{"valex":"unit"}"#, "5 unknown-word /valex"),
    (r#"{"valex":"replies","version":3}"#, "6 version /version"),
    (r#"{"valex":"replies","version":1}"#, "2 missing /replies"),
    (
        r#"{"valex":"replies","version":1,"replies":[[1]]}"#,
        "4 out-of-range /replies/0",
    ),
    (
        r#"{"valex":"replies","version":1,"replies":[0,[1,4294967296]]}"#,
        "4 out-of-range /replies/1/1",
    ),
    (
        r#"{"valex":"replies","version":1,"replies":["0x1"]}"#,
        "3 wrong-kind /replies/0",
    ),
    (r#"{"valex":"replies","version":2}"#, "2 missing /replies"),
];

static REPLIES_1: [(&str, &str); 2] = [
    ("0,-1,[0,4294967295]", "replies"),
    (r#"{"r3":0,"r4":0,"fills":[]}"#, "3 wrong-kind /replies/0"),
];

static REPLIES_2: [(&str, &str); 13] = [
    (
        r#"0,[1,2],{"r3":-1,"r4":4294967295,"fills":[],"r5":1}"#,
        "replies",
    ),
    ("0,{}", "2 missing /replies/1/r3"),
    (r#"{"r3":"0"}"#, "3 wrong-kind /replies/0/r3"),
    (r#"{"r3":4294967296}"#, "4 out-of-range /replies/0/r3"),
    (r#"{"r3":0}"#, "2 missing /replies/0/r4"),
    (r#"{"r3":0,"r4":0}"#, "2 missing /replies/0/fills"),
    (
        r#"{"r3":0,"r4":0,"fills":""}"#,
        "3 wrong-kind /replies/0/fills",
    ),
    (
        r#"{"r3":0,"r4":0,"fills":[0]}"#,
        "3 wrong-kind /replies/0/fills/0",
    ),
    (
        r#"{"r3":0,"r4":0,"fills":["","0"]}"#,
        "4 out-of-range /replies/0/fills/1",
    ),
    (
        r#"{"r3":0,"r4":0,"fills":["0g"]}"#,
        "4 out-of-range /replies/0/fills/0",
    ),
    (
        r#"{"r3":0,"r4":0,"fills":["","","","","","","",""]}"#,
        "replies",
    ),
    (
        r#"{"r3":0,"r4":0,"fills":["","","","","","","","",7]}"#,
        "9 limit /replies/0/fills 8",
    ),
    (r#""x""#, "3 wrong-kind /replies/0"),
];

static VALUES: [(&str, &str); 1] = [(
    r#"-1,[1,2],{"r3":3,"r4":-4,"fills":["","0aF9"]}"#,
    "ffffffff deadbeef deadbeef deadbeef Listed { kept: [] }; 1 2 deadbeef deadbeef Listed { kept: [] }; 3 fffffffc deadbeef deadbeef Listed { kept: [Listed { kept: [] }, Listed { kept: [10, 249] }] }; ",
)];

/// Each place beside its rows.
pub fn rows_of(place: Place) -> &'static [(&'static str, &'static str)] {
    match place {
        Place::Text => &UNITS,
        Place::Lists => &LISTS,
        Place::Code => &CODES,
        Place::Instruction => &INSTRUCTIONS,
        Place::Init => &INITS,
        Place::Signature1 => &SIGNATURES_1,
        Place::Signature2 => &SIGNATURES_2,
        Place::Buffers => &BUFFERS,
        Place::ReplyText => &REPLY_TEXTS,
        Place::Replies1 => &REPLIES_1,
        Place::Replies2 => &REPLIES_2,
        Place::Values => &VALUES,
        Place::Functions | Place::Variables | Place::Externals | Place::Labels | Place::Fill => &[],
    }
}

static PLACES: [Place; 12] = [
    Place::Text,
    Place::Lists,
    Place::Code,
    Place::Instruction,
    Place::Init,
    Place::Signature1,
    Place::Signature2,
    Place::Buffers,
    Place::ReplyText,
    Place::Replies1,
    Place::Replies2,
    Place::Values,
];

/// The places that have rows.
pub fn places() -> &'static [Place] {
    &PLACES
}

/// A place, the number of items that stand there, and the answer.
static LIMITS: [(Place, u32, &str); 11] = [
    (Place::Functions, 65537, "9 limit /functions 65536"),
    (Place::Functions, 65536, "3 wrong-kind /functions/0"),
    (Place::Variables, 65537, "9 limit /variables 65536"),
    (Place::Externals, 65537, "9 limit /externals 65536"),
    (Place::Code, 65537, "9 limit /functions/0/code 65536"),
    (Place::Labels, 65537, "9 limit /functions/0/code/1/2 65536"),
    (Place::Init, 65537, "9 limit /variables/0/init 65536"),
    (Place::Replies1, 65537, "9 limit /replies 65536"),
    (Place::Replies1, 65536, "replies"),
    (Place::Fill, 65536, "replies"),
    (Place::Fill, 65537, "9 limit /replies/0/fills/0 65536"),
];

pub fn limits() -> &'static [(Place, u32, &'static str)] {
    &LIMITS
}
