//! Units and what `upgrade` writes of them: a text of the newest version on one line.
//!
//! The texts but the first are those of an implementation that was written apart.

static UPGRADES: [(&str, &str); 6] = [
    (
        r#"{"valex":"unit","version":1,"unit":"a.c","functions":[{"name":"main","static":false,"code":[["addi",3,0,7],["blr"]]}],
"variables":[],"externals":[]}"#,
        r#"{"externals":[],"functions":[{"code":[["addi",3,0,7],["blr"]],"name":"main","static":false}],"unit":"a.c","valex":"unit","variables":[],"version":2}"#,
    ),
    (
        r#"{"valex": "unit", "version": 1, "unit": "x/y.c0", "functions": [], "variables": [], "externals": []}"#,
        r#"{"externals":[],"functions":[],"unit":"x/y.c0","valex":"unit","variables":[],"version":2}"#,
    ),
    (
        r#"{"valex": "unit", "version": 2, "unit": "a.c2", "functions": [], "variables": [{"name": "v2_0", "static": false, "writable": false, "align": 4, "init": []}, {"name": "tmp", "static": true, "writable": false, "align": 4, "init": [["bytes", "b48e"], ["bytes", "795745"], ["i32", -2147483648], ["i8", -128], ["space", 8]]}], "externals": [{"name": "_e", "sig": null}, {"name": "f1_2", "sig": {"args": ["l"], "result": "l", "buffers": []}}]}"#,
        r#"{"externals":[{"name":"_e","sig":null},{"name":"f1_2","sig":{"args":["l"],"buffers":[],"result":"l"}}],"functions":[],"unit":"a.c2","valex":"unit","variables":[{"align":4,"init":[],"name":"v2_0","static":false,"writable":false},{"align":4,"init":[["bytes","b48e"],["bytes","795745"],["i32",2147483648],["i8",128],["space",8]],"name":"tmp","static":true,"writable":false}],"version":2}"#,
    ),
    (
        r#"{"valex": "unit", "version": 1, "unit": "u0", "functions": [{"name": "\"q\\", "static": true, "code": [["label", 3], ["mfcrbit", 22, 13], ["addi", 30, 0, ["sda", "v0_0", 0]], ["label", 0], ["label", 8]]}], "variables": [{"name": "v0_0", "static": false, "writable": false, "align": 8, "init": [["i8", 190]]}, {"name": "v0_1", "static": false, "writable": true, "align": 1, "init": [["i16", 65535]]}], "externals": [{"name": "main", "sig": null}]}"#,
        r#"{"externals":[{"name":"main","sig":null}],"functions":[{"code":[["label",3],["mfcrbit",22,13],["addi",30,0,["sda","v0_0",0]],["label",0],["label",8]],"name":"\"q\\","static":true}],"unit":"u0","valex":"unit","variables":[{"align":8,"init":[["i8",190]],"name":"v0_0","static":false,"writable":false},{"align":1,"init":[["i16",65535]],"name":"v0_1","static":false,"writable":true}],"version":2}"#,
    ),
    (
        r#"{"valex": "unit", "version": 1, "unit": "Z~!1", "functions": [{"name": "start", "static": false, "code": [["bs", "ext0"]]}], "variables": [{"name": "__stringlit_2", "static": true, "writable": true, "align": 16, "init": []}], "externals": [{"name": "ext0", "sig": {"args": ["w", "l"], "result": "w"}}]}"#,
        r#"{"externals":[{"name":"ext0","sig":{"args":["w","l"],"buffers":[],"result":"w"}}],"functions":[{"code":[["bs","ext0"]],"name":"start","static":false}],"unit":"Z~!1","valex":"unit","variables":[{"align":16,"init":[],"name":"__stringlit_2","static":true,"writable":true}],"version":2}"#,
    ),
    (
        r#"{"valex": "unit", "version": 2, "unit": "b.c1", "functions": [{"name": "__stringlit_2", "static": true, "code": [["allocframe", 16], ["mflr", 0], ["stw", 0, 8, 1], ["imm", 14, -1], ["imm", 15, 7], ["imm", 16, 1], ["imm", 17, 3266736882], ["imm", 18, -1], ["imm", 19, 1], ["imm", 20, 65536], ["addi", 3, 0, ["sda", "-", 0]], ["imm", 5, 1893414600], ["imm", 6, 787050750], ["bl", "ext3"], ["or", 14, 3, 3], ["addic", 14, 14, -1], ["mulhw", 17, 18, 16], ["addi", 14, 20, -3], ["or", 3, 14, 14], ["lwz", 0, 8, 1], ["mtlr", 0], ["freeframe", 16], ["blr"]]}], "variables": [{"name": "v1_0", "static": false, "writable": true, "align": 4, "init": [["space", 8], ["space", 1], ["i32", 0], ["addr", "__stringlit_2", 0], ["bytes", "EA0566"]]}, {"name": "v1_1", "static": false, "writable": true, "align": 2, "init": [["i16", 29510], ["bytes", "50"], ["i16", -32768]]}, {"name": "-", "static": true, "writable": false, "align": 1, "init": [["i32", 4294967295], ["addr", "-", -215032962], ["bytes", "1DF9C51F58FB"]]}], "externals": [{"name": "ext3", "sig": {"args": ["w", "l"], "result": "w", "buffers": [["in", 0, ["arg", 0]], ["out", 0, ["arg", 0]], ["out", 0, 65536]]}}]}"#,
        r#"{"externals":[{"name":"ext3","sig":{"args":["w","l"],"buffers":[["in",0,["arg",0]],["out",0,["arg",0]],["out",0,65536]],"result":"w"}}],"functions":[{"code":[["allocframe",16],["mflr",0],["stw",0,8,1],["imm",14,4294967295],["imm",15,7],["imm",16,1],["imm",17,3266736882],["imm",18,4294967295],["imm",19,1],["imm",20,65536],["addi",3,0,["sda","-",0]],["imm",5,1893414600],["imm",6,787050750],["bl","ext3"],["or",14,3,3],["addic",14,14,-1],["mulhw",17,18,16],["addi",14,20,-3],["or",3,14,14],["lwz",0,8,1],["mtlr",0],["freeframe",16],["blr"]],"name":"__stringlit_2","static":true}],"unit":"b.c1","valex":"unit","variables":[{"align":4,"init":[["space",8],["space",1],["i32",0],["addr","__stringlit_2",0],["bytes","ea0566"]],"name":"v1_0","static":false,"writable":true},{"align":2,"init":[["i16",29510],["bytes","50"],["i16",32768]],"name":"v1_1","static":false,"writable":true},{"align":1,"init":[["i32",4294967295],["addr","-",-215032962],["bytes","1df9c51f58fb"]],"name":"-","static":true,"writable":false}],"version":2}"#,
    ),
];

/// Without the newline at the end.
pub fn upgrades() -> &'static [(&'static str, &'static str)] {
    &UPGRADES
}
