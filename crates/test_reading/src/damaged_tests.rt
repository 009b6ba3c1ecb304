//! A function whose text is damaged in each way of a kind, and the answer to each.
//!
//! The answers are from a reader in another language. Each is `read`, `nothing` where no function is
//! left, or why and where the function is refused or the text is no module.
use crate::answers::answer;
use std::alloc::{AllocError, Global};
use std::test::Fail;

// The tokens of the text, each after its blanks.
const PIECES: [&str; 48] = [
    "define",
    " noundef",
    " i8",
    " @f",
    "(",
    "i8",
    " noundef",
    " %x",
    ",",
    " i1",
    " %c",
    ")",
    " #0",
    " {",
    "\nentry:",
    "\n  %a",
    " =",
    " add",
    " nuw",
    " i8",
    " %x",
    ",",
    " -1",
    ",",
    " !dbg",
    " !3",
    "\n    #dbg_value",
    "(",
    "i8",
    " %a",
    ",",
    " !4",
    ")",
    "\n  %s",
    " =",
    " select",
    " i1",
    " %c",
    ",",
    " i8",
    " %a",
    ",",
    " i8",
    " poison",
    "\n  ret",
    " i8",
    " %s",
    "\n}",
];

// Only a prefix, of each length from 0.
const CUT: &str =
    "nothing no-item@1:1 no-item@1:1 no-item@1:1 no-item@1:1 no-item@1:1 text-ends@1:7 text-ends@1:8
text-ends@1:9 text-ends@1:10 text-ends@1:11 text-ends@1:12 text-ends@1:13 text-ends@1:14
text-ends@1:15 text-ends@1:16 text-ends@1:17 text-ends@1:18 text-ends@1:19 no-token@1:19
text-ends@1:21 text-ends@1:22 text-ends@1:23 text-ends@1:24 text-ends@1:25 text-ends@1:26
text-ends@1:27 text-ends@1:28 text-ends@1:29 text-ends@1:30 text-ends@1:31 text-ends@1:32
text-ends@1:33 no-token@1:33 text-ends@1:35 text-ends@1:36 text-ends@1:37 text-ends@1:38
text-ends@1:39 text-ends@1:40 no-token@1:40 text-ends@1:42 text-ends@1:43 text-ends@1:44
no-token@1:44 text-ends@1:46 text-ends@1:47 text-ends@1:48 text-ends@2:1 text-ends@2:2
text-ends@2:3 text-ends@2:4 text-ends@2:5 text-ends@2:6 text-ends@2:7 text-ends@3:1
text-ends@3:2 text-ends@3:3 no-token@3:3 text-ends@3:5 text-ends@3:6 text-ends@3:7 text-ends@3:8
text-ends@3:9 text-ends@3:10 text-ends@3:11 text-ends@3:12 text-ends@3:13 text-ends@3:14
text-ends@3:15 text-ends@3:16 text-ends@3:17 text-ends@3:18 text-ends@3:19 no-token@3:19
text-ends@3:21 text-ends@3:22 text-ends@3:23 no-token@3:23 text-ends@3:25 text-ends@3:26
text-ends@3:27 text-ends@3:28 text-ends@3:29 text-ends@3:30 text-ends@3:31 text-ends@3:32
text-ends@3:33 text-ends@3:34 text-ends@4:1 text-ends@4:2 text-ends@4:3 text-ends@4:4
text-ends@4:5 no-token@4:5 text-ends@4:7 text-ends@4:8 text-ends@4:9 text-ends@4:10
text-ends@4:11 text-ends@4:12 text-ends@4:13 text-ends@4:14 text-ends@4:15 text-ends@4:16
text-ends@4:17 text-ends@4:18 text-ends@4:19 no-token@4:19 text-ends@4:21 text-ends@4:22
text-ends@4:23 text-ends@4:24 text-ends@4:25 text-ends@4:26 text-ends@5:1 text-ends@5:2
text-ends@5:3 no-token@5:3 text-ends@5:5 text-ends@5:6 text-ends@5:7 text-ends@5:8 text-ends@5:9
text-ends@5:10 text-ends@5:11 text-ends@5:12 text-ends@5:13 text-ends@5:14 text-ends@5:15
text-ends@5:16 text-ends@5:17 text-ends@5:18 no-token@5:18 text-ends@5:20 text-ends@5:21
text-ends@5:22 text-ends@5:23 text-ends@5:24 text-ends@5:25 no-token@5:25 text-ends@5:27
text-ends@5:28 text-ends@5:29 text-ends@5:30 text-ends@5:31 text-ends@5:32 text-ends@5:33
text-ends@5:34 text-ends@5:35 text-ends@5:36 text-ends@5:37 text-ends@5:38 text-ends@6:1
text-ends@6:2 text-ends@6:3 text-ends@6:4 text-ends@6:5 text-ends@6:6 text-ends@6:7
text-ends@6:8 text-ends@6:9 text-ends@6:10 no-token@6:10 text-ends@6:12 text-ends@7:1 read read";

// Without one token.
const DROPPED: &str =
    "no-item@1:2 read Unsupported@1:16 text-ends@7:2 bracket@1:41 Unsupported@1:23 read
NameUnknown@3:19 Unsupported@1:36 Unsupported@1:37 NameUnknown@5:18 text-ends@7:2 read
no-body@3:3 read Syntax@2:8 Unsupported@3:6 Unsupported@3:8 read Unsupported@3:16 Syntax@3:18
Syntax@3:22 Syntax@3:22 Unsupported@3:26 Unsupported@3:27 Unsupported@4:5 Syntax@3:34
bracket@4:24 read read read read bracket@7:1 Syntax@4:27 Unsupported@5:6 Unsupported@5:8
Unsupported@5:15 Syntax@5:17 Unsupported@5:21 Unsupported@5:22 Syntax@5:24 Unsupported@5:28
Unsupported@5:29 Unsupported@6:3 Unsupported@5:39 Unsupported@6:7 Syntax@7:1 text-ends@6:12";

// With one token twice.
const DOUBLED: &str =
    "Unsupported@1:8 read Unsupported@1:19 Unsupported@1:22 text-ends@7:2 Unsupported@1:25 read
Syntax@1:36 Syntax@1:37 Unsupported@1:40 Syntax@1:43 bracket@1:44 read text-ends@7:2 Syntax@2:8
Syntax@3:6 Syntax@3:8 Unsupported@3:12 Unsupported@3:16 Unsupported@3:19 Syntax@3:22 Syntax@3:23
Syntax@3:26 Syntax@3:27 Unsupported@3:32 Unsupported@3:35 Unsupported@4:16 bracket@7:1 read read
read read bracket@4:27 Syntax@5:6 Syntax@5:8 Unsupported@5:15 Unsupported@5:18 Syntax@5:21
Syntax@5:22 Unsupported@5:25 Syntax@5:28 Syntax@5:29 Unsupported@5:32 Unsupported@5:39
Unsupported@6:7 Unsupported@6:10 Syntax@6:13 no-item@7:3";

// With one token replaced by another: the token, and the answers on the lines that follow. An empty
// line ends a row.
const REPLACED: &str = "\
%x
no-item@1:2 Unsupported@1:8 Unsupported@1:16 text-ends@7:2 bracket@1:44 Unsupported@1:23
Syntax@1:28 read Syntax@1:36 Unsupported@1:37 NameTwice@1:40 text-ends@7:2 Syntax@1:44
no-body@3:3 Syntax@2:3 NameTwice@2:8 Syntax@3:6 Syntax@3:8 Unsupported@3:12 Unsupported@3:16
read Syntax@3:22 read Unsupported@3:29 Syntax@3:27 Syntax@3:32 Syntax@3:37 bracket@4:27 read
read read read bracket@7:1 NameTwice@4:27 Syntax@5:6 Syntax@5:8 Unsupported@5:15 TypeClash@5:18
Syntax@5:21 Unsupported@5:22 read Syntax@5:28 Unsupported@5:29 read Unsupported@5:42
Unsupported@6:7 read text-ends@6:15

%y
no-item@1:2 Unsupported@1:8 Unsupported@1:16 text-ends@7:2 bracket@1:44 Unsupported@1:23
Syntax@1:28 NameUnknown@3:19 Syntax@1:36 Unsupported@1:37 NameUnknown@5:18 text-ends@7:2
Syntax@1:44 no-body@3:3 Syntax@2:3 NameUnknown@4:25 Syntax@3:6 Syntax@3:8 Unsupported@3:12
Unsupported@3:16 NameUnknown@3:19 Syntax@3:22 NameUnknown@3:23 Unsupported@3:29 Syntax@3:27
Syntax@3:32 Syntax@3:37 bracket@4:27 read read read read bracket@7:1 NameUnknown@5:10 Syntax@5:6
Syntax@5:8 Unsupported@5:15 NameUnknown@5:18 Syntax@5:21 Unsupported@5:22 NameUnknown@5:25
Syntax@5:28 Unsupported@5:29 NameUnknown@5:32 Unsupported@5:42 Unsupported@6:7 NameUnknown@6:10
text-ends@6:15

@g
no-item@1:2 Unsupported@1:8 Unsupported@1:16 read bracket@1:44 Unsupported@1:23 Unsupported@1:25
Unsupported@1:33 Unsupported@1:36 Unsupported@1:37 Unsupported@1:40 text-ends@7:2
Unsupported@1:44 no-body@3:3 Unsupported@1:49 Unsupported@2:8 Unsupported@3:6 Unsupported@3:8
Unsupported@3:12 Unsupported@3:16 Unsupported@3:19 Unsupported@3:22 Unsupported@3:23
Unsupported@3:26 Unsupported@3:27 Unsupported@3:32 Unsupported@3:35 bracket@4:27 read read read
read bracket@7:1 Unsupported@4:27 Unsupported@5:6 Unsupported@5:8 Unsupported@5:15
Unsupported@5:18 Unsupported@5:21 Unsupported@5:22 Unsupported@5:25 Unsupported@5:28
Unsupported@5:29 Unsupported@5:32 Unsupported@5:39 Unsupported@6:7 Unsupported@6:10
text-ends@6:15

i65
no-item@1:2 Limit@1:8 Limit@1:16 text-ends@7:2 bracket@1:45 Limit@1:23 Unsupported@1:25
Unsupported@1:33 Unsupported@1:36 Limit@1:37 Unsupported@1:40 text-ends@7:2 Unsupported@1:44
no-body@3:3 Unsupported@1:49 Unsupported@2:8 Unsupported@3:6 Unsupported@3:8 Limit@3:12
Limit@3:16 Unsupported@3:19 Unsupported@3:22 Unsupported@3:23 Unsupported@3:26 Unsupported@3:27
Unsupported@3:32 Unsupported@3:35 bracket@4:28 read read read read bracket@7:1 Unsupported@4:27
Unsupported@5:6 Unsupported@5:8 Limit@5:15 Unsupported@5:18 Unsupported@5:21 Limit@5:22
Unsupported@5:25 Unsupported@5:28 Limit@5:29 Unsupported@5:32 Unsupported@5:39 Limit@6:7
Unsupported@6:10 text-ends@6:16

300
no-item@1:2 Syntax@1:8 Syntax@1:16 text-ends@7:2 bracket@1:45 Syntax@1:23 Syntax@1:25
Syntax@1:33 Syntax@1:36 Syntax@1:37 Syntax@1:40 text-ends@7:2 Syntax@1:44 no-body@3:3
Syntax@1:49 Syntax@2:8 Syntax@3:6 Syntax@3:8 Syntax@3:12 Syntax@3:16 Limit@3:19 Syntax@3:22
Limit@3:23 Syntax@3:26 Syntax@3:27 Syntax@3:32 Syntax@3:35 bracket@4:28 read read read read
bracket@7:1 Syntax@4:27 Syntax@5:6 Syntax@5:8 Syntax@5:15 Limit@5:18 Syntax@5:21 Syntax@5:22
Limit@5:25 Syntax@5:28 Syntax@5:29 Limit@5:32 Syntax@5:39 Syntax@6:7 Limit@6:10 text-ends@6:16

-128
no-item@1:2 Syntax@1:8 Syntax@1:16 text-ends@7:2 bracket@1:46 Syntax@1:23 Syntax@1:25
Syntax@1:33 Syntax@1:36 Syntax@1:37 Syntax@1:40 text-ends@7:2 Syntax@1:44 no-body@3:3
Syntax@1:49 Syntax@2:8 Syntax@3:6 Syntax@3:8 Syntax@3:12 Syntax@3:16 read Syntax@3:22 read
Syntax@3:26 Syntax@3:27 Syntax@3:32 Syntax@3:35 bracket@4:29 read read read read bracket@7:1
Syntax@4:27 Syntax@5:6 Syntax@5:8 Syntax@5:15 Limit@5:18 Syntax@5:21 Syntax@5:22 read
Syntax@5:28 Syntax@5:29 read Syntax@5:39 Syntax@6:7 read text-ends@6:17

(
no-item@1:2 text-ends@7:2 text-ends@7:2 text-ends@7:2 read text-ends@7:2 text-ends@7:2
text-ends@7:2 text-ends@7:2 text-ends@7:2 text-ends@7:2 text-ends@7:2 text-ends@7:2 bracket@7:1
bracket@6:1 bracket@6:1 bracket@7:1 bracket@7:1 bracket@7:1 bracket@7:1 bracket@7:1 bracket@7:1
bracket@7:1 bracket@7:1 bracket@7:1 bracket@7:1 bracket@6:1 read bracket@7:1 bracket@7:1
bracket@7:1 bracket@7:1 bracket@7:1 bracket@6:1 bracket@7:1 bracket@7:1 bracket@7:1 bracket@7:1
bracket@7:1 bracket@7:1 bracket@7:1 bracket@7:1 bracket@7:1 bracket@7:1 bracket@6:1 bracket@7:1
bracket@7:1 text-ends@6:14

}
no-item@1:2 bracket@1:8 bracket@1:16 bracket@1:19 bracket@1:22 bracket@1:23 bracket@1:25
bracket@1:33 bracket@1:36 bracket@1:37 bracket@1:40 bracket@1:43 bracket@1:44 bracket@1:47
bracket@6:1 no-item@2:10 no-item@3:8 no-item@3:10 no-item@3:14 no-item@3:18 no-item@3:20
no-item@3:24 no-item@3:24 no-item@3:28 no-item@3:29 no-item@4:5 no-item@3:36 no-item@4:17
bracket@4:17 bracket@4:19 bracket@4:22 bracket@4:23 bracket@4:26 no-item@4:29 no-item@5:8
no-item@5:10 no-item@5:17 no-item@5:19 no-item@5:23 no-item@5:24 no-item@5:26 no-item@5:30
no-item@5:31 no-item@6:3 no-item@5:41 no-item@6:9 no-item@7:1 read

ret
no-item@1:2 Unsupported@1:8 Unsupported@1:16 text-ends@7:2 bracket@1:45 Unsupported@1:23
Unsupported@1:25 Unsupported@1:33 Unsupported@1:36 Unsupported@1:37 Unsupported@1:40
text-ends@7:2 Unsupported@1:44 no-body@3:3 Unsupported@2:3 Syntax@2:12 Unsupported@3:6
Unsupported@3:8 Unsupported@3:12 Unsupported@3:16 Unsupported@3:19 Unsupported@3:22
Unsupported@3:23 Unsupported@3:30 Unsupported@3:27 Unsupported@3:32 Syntax@3:38 bracket@4:28
read read read read bracket@7:1 Syntax@4:31 Unsupported@5:6 Unsupported@5:8 Unsupported@5:15
Unsupported@5:18 Unsupported@5:21 Unsupported@5:22 Unsupported@5:25 Unsupported@5:28
Unsupported@5:29 Unsupported@5:32 read Unsupported@6:7 Unsupported@6:10 text-ends@6:16

x:
no-item@1:2 Syntax@1:8 Syntax@1:16 text-ends@7:2 bracket@1:44 Syntax@1:23 Syntax@1:25
Syntax@1:33 Syntax@1:36 Syntax@1:37 Syntax@1:40 text-ends@7:2 Syntax@1:44 no-body@3:3
NameTwice@1:49 Syntax@2:8 Syntax@3:6 Syntax@3:8 Syntax@3:12 Syntax@3:16 Syntax@3:19 Syntax@3:22
Syntax@3:23 Syntax@3:26 Syntax@3:27 Syntax@3:32 Syntax@3:35 bracket@4:27 read read read read
bracket@7:1 Syntax@4:27 Syntax@5:6 Syntax@5:8 Syntax@5:15 Syntax@5:18 Syntax@5:21 Syntax@5:22
Syntax@5:25 Syntax@5:28 Syntax@5:29 Syntax@5:32 Syntax@5:39 Syntax@6:7 Syntax@6:10
text-ends@6:15

!3
no-item@1:2 Unsupported@1:8 Unsupported@1:16 text-ends@7:2 bracket@1:44 Unsupported@1:23
Unsupported@1:25 Unsupported@1:33 Unsupported@1:36 Unsupported@1:37 Unsupported@1:40
text-ends@7:2 Unsupported@1:44 no-body@3:3 Unsupported@1:49 Unsupported@2:8 Unsupported@3:6
Unsupported@3:8 Unsupported@3:12 Unsupported@3:16 Unsupported@3:19 Unsupported@3:22
Unsupported@3:23 Unsupported@3:26 Unsupported@3:27 read Unsupported@3:35 bracket@4:27 read read
read read bracket@7:1 Unsupported@4:27 Unsupported@5:6 Unsupported@5:8 Unsupported@5:15
Unsupported@5:18 Unsupported@5:21 Unsupported@5:22 Unsupported@5:25 Unsupported@5:28
Unsupported@5:29 Unsupported@5:32 Unsupported@5:39 Unsupported@6:7 Unsupported@6:10
text-ends@6:15

1.5
no-item@1:2 Unsupported@1:8 Unsupported@1:16 text-ends@7:2 bracket@1:45 Unsupported@1:23
Unsupported@1:25 Unsupported@1:33 Unsupported@1:36 Unsupported@1:37 Unsupported@1:40
text-ends@7:2 Unsupported@1:44 no-body@3:3 Unsupported@1:49 Unsupported@2:8 Unsupported@3:6
Unsupported@3:8 Unsupported@3:12 Unsupported@3:16 Unsupported@3:19 Unsupported@3:22
Unsupported@3:23 Unsupported@3:26 Unsupported@3:27 Unsupported@3:32 Unsupported@3:35
bracket@4:28 read read read read bracket@7:1 Unsupported@4:27 Unsupported@5:6 Unsupported@5:8
Unsupported@5:15 Unsupported@5:18 Unsupported@5:21 Unsupported@5:22 Unsupported@5:25
Unsupported@5:28 Unsupported@5:29 Unsupported@5:32 Unsupported@5:39 Unsupported@6:7
Unsupported@6:10 text-ends@6:16

\"q\"
no-item@1:2 Unsupported@1:8 Unsupported@1:16 text-ends@7:2 bracket@1:45 Unsupported@1:23
Unsupported@1:25 Unsupported@1:33 Unsupported@1:36 Unsupported@1:37 Unsupported@1:40
text-ends@7:2 Unsupported@1:44 no-body@3:3 Unsupported@1:49 Unsupported@2:8 Unsupported@3:6
Unsupported@3:8 Unsupported@3:12 Unsupported@3:16 Unsupported@3:19 Unsupported@3:22
Unsupported@3:23 Unsupported@3:26 Unsupported@3:27 Unsupported@3:32 Unsupported@3:35
bracket@4:28 read read read read bracket@7:1 Unsupported@4:27 Unsupported@5:6 Unsupported@5:8
Unsupported@5:15 Unsupported@5:18 Unsupported@5:21 Unsupported@5:22 Unsupported@5:25
Unsupported@5:28 Unsupported@5:29 Unsupported@5:32 Unsupported@5:39 Unsupported@6:7
Unsupported@6:10 text-ends@6:16";

// With one byte replaced by another.
const CHANGED: [(u8, &str); 4] = [
    (
        0,
        "no-token@1:1 no-token@1:2 no-token@1:3 no-token@1:4 no-token@1:5 no-token@1:6 no-token@1:7
no-token@1:8 no-token@1:9 no-token@1:10 no-token@1:11 no-token@1:12 no-token@1:13 no-token@1:14
no-token@1:15 no-token@1:16 no-token@1:17 no-token@1:18 no-token@1:19 no-token@1:19
no-token@1:21 no-token@1:22 no-token@1:23 no-token@1:24 no-token@1:25 no-token@1:26
no-token@1:27 no-token@1:28 no-token@1:29 no-token@1:30 no-token@1:31 no-token@1:32
no-token@1:33 no-token@1:33 no-token@1:35 no-token@1:36 no-token@1:37 no-token@1:38
no-token@1:39 no-token@1:40 no-token@1:40 no-token@1:42 no-token@1:43 no-token@1:44
no-token@1:44 no-token@1:46 no-token@1:47 no-token@1:48 no-token@2:1 no-token@2:2 no-token@2:3
no-token@2:4 no-token@2:5 no-token@2:6 no-token@2:7 no-token@3:1 no-token@3:2 no-token@3:3
no-token@3:3 no-token@3:5 no-token@3:6 no-token@3:7 no-token@3:8 no-token@3:9 no-token@3:10
no-token@3:11 no-token@3:12 no-token@3:13 no-token@3:14 no-token@3:15 no-token@3:16
no-token@3:17 no-token@3:18 no-token@3:19 no-token@3:19 no-token@3:21 no-token@3:22
no-token@3:23 no-token@3:23 no-token@3:25 no-token@3:26 no-token@3:27 no-token@3:28
no-token@3:29 no-token@3:30 no-token@3:31 no-token@3:32 no-token@3:33 no-token@3:34 no-token@4:1
no-token@4:2 no-token@4:3 no-token@4:4 no-token@4:5 no-token@4:5 no-token@4:7 no-token@4:8
no-token@4:9 no-token@4:10 no-token@4:11 no-token@4:12 no-token@4:13 no-token@4:14 no-token@4:15
no-token@4:16 no-token@4:17 no-token@4:18 no-token@4:19 no-token@4:19 no-token@4:21
no-token@4:22 no-token@4:23 no-token@4:24 no-token@4:25 no-token@4:26 no-token@5:1 no-token@5:2
no-token@5:3 no-token@5:3 no-token@5:5 no-token@5:6 no-token@5:7 no-token@5:8 no-token@5:9
no-token@5:10 no-token@5:11 no-token@5:12 no-token@5:13 no-token@5:14 no-token@5:15
no-token@5:16 no-token@5:17 no-token@5:18 no-token@5:18 no-token@5:20 no-token@5:21
no-token@5:22 no-token@5:23 no-token@5:24 no-token@5:25 no-token@5:25 no-token@5:27
no-token@5:28 no-token@5:29 no-token@5:30 no-token@5:31 no-token@5:32 no-token@5:33
no-token@5:34 no-token@5:35 no-token@5:36 no-token@5:37 no-token@5:38 no-token@6:1 no-token@6:2
no-token@6:3 no-token@6:4 no-token@6:5 no-token@6:6 no-token@6:7 no-token@6:8 no-token@6:9
no-token@6:10 no-token@6:10 no-token@6:12 no-token@7:1 no-token@7:2",
    ),
    (
        b'"',
        "no-token@1:1 no-token@1:2 no-token@1:3 no-token@1:4 no-token@1:5 no-token@1:6 no-token@1:7
no-token@1:8 no-token@1:9 no-token@1:10 no-token@1:11 no-token@1:12 no-token@1:13 no-token@1:14
no-token@1:15 no-token@1:16 no-token@1:17 no-token@1:18 no-token@1:19 no-token@1:19
no-token@1:21 no-token@1:22 no-token@1:23 no-token@1:24 no-token@1:25 no-token@1:26
no-token@1:27 no-token@1:28 no-token@1:29 no-token@1:30 no-token@1:31 no-token@1:32
no-token@1:33 no-token@1:33 no-token@1:35 no-token@1:36 no-token@1:37 no-token@1:38
no-token@1:39 no-token@1:40 no-token@1:40 no-token@1:42 no-token@1:43 no-token@1:44
no-token@1:44 no-token@1:46 no-token@1:47 no-token@1:48 no-token@2:1 no-token@2:2 no-token@2:3
no-token@2:4 no-token@2:5 no-token@2:6 no-token@2:7 no-token@3:1 no-token@3:2 no-token@3:3
no-token@3:3 no-token@3:5 no-token@3:6 no-token@3:7 no-token@3:8 no-token@3:9 no-token@3:10
no-token@3:11 no-token@3:12 no-token@3:13 no-token@3:14 no-token@3:15 no-token@3:16
no-token@3:17 no-token@3:18 no-token@3:19 no-token@3:19 no-token@3:21 no-token@3:22
no-token@3:23 no-token@3:23 no-token@3:25 no-token@3:26 no-token@3:27 no-token@3:28
no-token@3:29 no-token@3:30 no-token@3:31 no-token@3:32 no-token@3:33 no-token@3:34 no-token@4:1
no-token@4:2 no-token@4:3 no-token@4:4 no-token@4:5 no-token@4:5 no-token@4:7 no-token@4:8
no-token@4:9 no-token@4:10 no-token@4:11 no-token@4:12 no-token@4:13 no-token@4:14 no-token@4:15
no-token@4:16 no-token@4:17 no-token@4:18 no-token@4:19 no-token@4:19 no-token@4:21
no-token@4:22 no-token@4:23 no-token@4:24 no-token@4:25 no-token@4:26 no-token@5:1 no-token@5:2
no-token@5:3 no-token@5:3 no-token@5:5 no-token@5:6 no-token@5:7 no-token@5:8 no-token@5:9
no-token@5:10 no-token@5:11 no-token@5:12 no-token@5:13 no-token@5:14 no-token@5:15
no-token@5:16 no-token@5:17 no-token@5:18 no-token@5:18 no-token@5:20 no-token@5:21
no-token@5:22 no-token@5:23 no-token@5:24 no-token@5:25 no-token@5:25 no-token@5:27
no-token@5:28 no-token@5:29 no-token@5:30 no-token@5:31 no-token@5:32 no-token@5:33
no-token@5:34 no-token@5:35 no-token@5:36 no-token@5:37 no-token@5:38 no-token@6:1 no-token@6:2
no-token@6:3 no-token@6:4 no-token@6:5 no-token@6:6 no-token@6:7 no-token@6:8 no-token@6:9
no-token@6:10 no-token@6:10 no-token@6:12 no-token@7:1 no-token@7:2",
    ),
    (
        b'\r',
        "no-item@1:2 no-item@1:1 no-item@1:1 no-item@1:1 no-item@1:1 no-item@1:1 read Unsupported@1:9
Unsupported@1:8 Unsupported@1:8 Unsupported@1:8 Unsupported@1:8 Unsupported@1:8 Unsupported@1:8
read Syntax@1:17 Unsupported@1:16 read text-ends@8:1 no-token@1:19 bracket@1:42 Syntax@1:23
Unsupported@1:22 read Unsupported@1:26 Unsupported@1:25 Unsupported@1:25 Unsupported@1:25
Unsupported@1:25 Unsupported@1:25 Unsupported@1:25 read Unsupported@1:34 no-token@1:33
Unsupported@1:37 read Syntax@1:38 Unsupported@1:37 read Unsupported@1:41 no-token@1:40
text-ends@8:1 read Syntax@1:45 no-token@1:44 read no-body@3:3 read read Unsupported@2:1
Unsupported@2:1 Unsupported@2:1 Unsupported@2:1 Unsupported@2:1 read read read Unsupported@3:4
no-token@3:3 read Unsupported@3:8 read Unsupported@3:9 Unsupported@3:8 Unsupported@3:8 read
Unsupported@3:13 Unsupported@3:12 Unsupported@3:12 read Syntax@3:17 Unsupported@3:16 read
Unsupported@3:20 no-token@3:19 Syntax@3:23 read read no-token@3:23 Unsupported@3:27 read
Unsupported@3:28 Syntax@3:27 Unsupported@3:27 Unsupported@3:27 read Syntax@3:33 Syntax@3:32 read
read read read read Unsupported@4:6 no-token@4:5 Unsupported@4:5 Unsupported@4:5 Unsupported@4:5
Unsupported@4:11 Unsupported@4:12 Unsupported@4:13 Unsupported@4:14 read bracket@4:25 read read
read read no-token@4:19 read read read read bracket@7:1 read read read Unsupported@5:4
no-token@5:3 read Unsupported@5:8 read Unsupported@5:9 Unsupported@5:8 Unsupported@5:8
Unsupported@5:8 Unsupported@5:8 Unsupported@5:8 read Syntax@5:16 Unsupported@5:15 read
Unsupported@5:19 no-token@5:18 Unsupported@5:22 read Syntax@5:23 Unsupported@5:22 read
Unsupported@5:26 no-token@5:25 Unsupported@5:29 read Syntax@5:30 Unsupported@5:29 read
Unsupported@5:33 Unsupported@5:32 Unsupported@5:32 Unsupported@5:32 Unsupported@5:32
Unsupported@5:32 read read read Unsupported@6:4 Unsupported@6:3 Unsupported@6:3 read Syntax@6:8
Unsupported@6:7 read Unsupported@6:11 no-token@6:10 read text-ends@8:1 read",
    ),
    (
        b';',
        "no-item@2:1 no-item@1:1 no-item@1:1 no-item@1:1 no-item@1:1 no-item@1:1 no-body@3:3 no-body@3:3
no-body@3:3 no-body@3:3 no-body@3:3 no-body@3:3 no-body@3:3 no-body@3:3 no-body@3:3 no-body@3:3
no-body@3:3 no-body@3:3 no-body@3:3 no-token@1:19 no-body@3:3 bracket@7:1 bracket@7:1
bracket@7:1 bracket@7:1 bracket@7:1 bracket@7:1 bracket@7:1 bracket@7:1 bracket@7:1 bracket@7:1
bracket@7:1 bracket@7:1 no-token@1:33 bracket@7:1 bracket@7:1 bracket@7:1 bracket@7:1
bracket@7:1 bracket@7:1 no-token@1:40 bracket@7:1 no-body@3:3 no-body@3:3 no-token@1:44
no-body@3:3 no-body@3:3 read read Unsupported@2:1 Unsupported@2:1 Unsupported@2:1
Unsupported@2:1 Unsupported@2:1 NameUnknown@4:25 NameUnknown@5:25 NameUnknown@5:25
NameUnknown@5:25 no-token@3:3 Unsupported@4:5 Unsupported@4:5 Unsupported@4:5 Unsupported@4:5
Unsupported@3:8 Unsupported@3:8 Unsupported@4:5 Unsupported@4:5 Unsupported@3:12
Unsupported@3:12 Unsupported@4:5 Unsupported@4:5 Unsupported@3:16 Unsupported@4:5
Unsupported@4:5 no-token@3:19 Unsupported@4:5 Unsupported@4:5 Unsupported@4:5 no-token@3:23 read
Unsupported@4:5 Unsupported@4:5 Syntax@3:27 Unsupported@3:27 Unsupported@3:27 Unsupported@4:5
Unsupported@4:5 Syntax@3:32 read read read read read read no-token@4:5 Unsupported@4:5
Unsupported@4:5 Unsupported@4:5 Syntax@5:3 Syntax@5:3 Syntax@5:3 Syntax@5:3 Syntax@5:3
Syntax@5:3 bracket@7:1 bracket@7:1 bracket@7:1 bracket@7:1 no-token@4:19 bracket@7:1 bracket@7:1
bracket@7:1 bracket@7:1 bracket@7:1 NameUnknown@5:10 NameUnknown@6:10 NameUnknown@6:10
NameUnknown@6:10 no-token@5:3 Unsupported@6:3 Unsupported@6:3 Unsupported@6:3 Unsupported@6:3
Unsupported@5:8 Unsupported@5:8 Unsupported@5:8 Unsupported@5:8 Unsupported@5:8 Unsupported@6:3
Unsupported@6:3 Unsupported@5:15 Unsupported@6:3 Unsupported@6:3 no-token@5:18 Unsupported@6:3
Unsupported@6:3 Unsupported@6:3 Unsupported@5:22 Unsupported@6:3 Unsupported@6:3 no-token@5:25
Unsupported@6:3 Unsupported@6:3 Unsupported@6:3 Unsupported@5:29 Unsupported@6:3 Unsupported@6:3
Unsupported@5:32 Unsupported@5:32 Unsupported@5:32 Unsupported@5:32 Unsupported@5:32 Syntax@6:1
Syntax@7:1 Syntax@7:1 Syntax@7:1 Unsupported@6:3 Unsupported@6:3 Syntax@7:1 Syntax@7:1
Unsupported@6:7 Syntax@7:1 Syntax@7:1 no-token@6:10 text-ends@7:1 text-ends@8:1 read",
    ),
];

fn push_all(text: &mut Vec<u8>, bytes: &[u8]) -> Result<(), AllocError> {
    for byte in bytes {
        text.push(*byte)?;
    }
    Ok(())
}

// The text with the piece at an index left out or kept, and another token instead or after it.
fn damaged(alloc: Global, damage: usize, kept: bool, other: &str) -> Result<Vec<u8>, AllocError> {
    let mut text = Vec::new(alloc);
    for (place, piece) in PIECES.iter().enumerate() {
        if place != damage || kept {
            push_all(&mut text, piece.as_bytes())?;
        }
        if place == damage && !other.is_empty() {
            text.push(b' ')?;
            push_all(&mut text, other.as_bytes())?;
        }
    }
    Ok(text)
}

// The bytes of the undamaged text.
fn whole(alloc: Global) -> Result<Vec<u8>, AllocError> {
    let mut text = Vec::new(alloc);
    for piece in &PIECES {
        push_all(&mut text, piece.as_bytes())?;
    }
    text.push(b'\n')?;
    Ok(text)
}

// Fails where the text with its damage at an index gets another answer.
fn is_answered(alloc: Global, index: usize, text: &[u8], want: &str) -> Result<(), Fail> {
    let found = answer(alloc, text)?;
    if found.as_str() == want {
        Ok(())
    } else {
        Err(Fail::new(format_args!("at {index}: {found} for {want}")))
    }
}

// Fails where these aren't the answers to the text with each piece in turn replaced by another
// token, or left out where that is empty.
fn are_replaced(alloc: Global, other: &str, answers: &str) -> Result<(), Fail> {
    for (index, answer) in answers.split_whitespace().enumerate() {
        let text = damaged(alloc, index, false, other)?;
        is_answered(alloc, index, text.as_slice(), answer)?;
    }
    Ok(())
}

#[test]
fn each_token_is_needed(rt: HostRuntime) -> Result<(), Fail> {
    are_replaced(rt.alloc(), "", DROPPED)
}

#[test]
fn no_token_stands_for_another(rt: HostRuntime) -> Result<(), Fail> {
    for row in REPLACED.split("\n\n") {
        let (other, answers) = row.split_once("\n").ok_or("a token and answers")?;
        are_replaced(rt.alloc(), other, answers)?;
    }
    Ok(())
}

// Fails where a text in which one piece occurs twice gets another answer.
fn is_doubled(alloc: Global, index: usize, want: &str) -> Result<(), Fail> {
    let piece = PIECES.get(index).copied().unwrap_or("").trim_start();
    let text = damaged(alloc, index, true, piece)?;
    is_answered(alloc, index, text.as_slice(), want)
}

#[test]
fn no_token_stands_twice(rt: HostRuntime) -> Result<(), Fail> {
    for (index, answer) in DOUBLED.split_whitespace().enumerate() {
        is_doubled(rt.alloc(), index, answer)?;
    }
    Ok(())
}

// Fails where these aren't the answers to each prefix of a text, the shortest first.
fn are_cut(alloc: Global, text: &[u8], answers: &str) -> Result<(), Fail> {
    for (end, answer) in answers.split_whitespace().enumerate() {
        is_answered(alloc, end, text.get(..end).unwrap_or(&[]), answer)?;
    }
    Ok(())
}

#[test]
fn it_may_break_off_anywhere(rt: HostRuntime) -> Result<(), Fail> {
    let text = whole(rt.alloc())?;
    are_cut(rt.alloc(), text.as_slice(), CUT)
}

// Fails where a text with another byte at an index gets another answer.
fn is_changed(alloc: Global, index: usize, byte: u8, want: &str) -> Result<(), Fail> {
    let mut text = whole(alloc)?;
    if let Some(changed) = text.as_mut_slice().get_mut(index) {
        *changed = byte;
    }
    is_answered(alloc, index, text.as_slice(), want)
}

fn are_changed(alloc: Global, byte: u8, answers: &str) -> Result<(), Fail> {
    for (index, answer) in answers.split_whitespace().enumerate() {
        is_changed(alloc, index, byte, answer)?;
    }
    Ok(())
}

#[test]
fn a_byte_may_be_another(rt: HostRuntime) -> Result<(), Fail> {
    for &(byte, answers) in &CHANGED {
        are_changed(rt.alloc(), byte, answers)?;
    }
    Ok(())
}
