//! Rows of calls with their answers, as `tools/memory_rows.py` prints them: it computed the answers
//! from the text of the LLVM Language Reference.

/// The blocks: a name, an alignment, the bytes, and after the bar what is past the size.
pub const BLOCKS: &str = "\
given1 16 01 02 03 84 ff 00 -- 07 null+9/0 null+9/1 null+9/2 null+9/3 null+9/4 null+9/5 null+9/6 null+9/7 |
given2 4 10 20 30 40 | 50 60 70 80
given3 8 given1+2/0 given1+2/1 given1+2/2 given1+2/3 given1+2/4 given1+2/5 given1+2/7 given1+2/6 |
given4 8 given1+2/0 given1+2/1 given1+2/2 given1+2/3 given1+3/4 given1+2/5 given1+2/6 given1+2/7 |
given5 8 given1+2/1 given1+2/2 given1+2/3 given1+2/4 given1+2/5 given1+2/6 given1+2/7 given1+2/0 |
local0.2 2 80 ff ff 7f |
given7 8 01~02 01~80 01 00~80 |
given1 16 aa |
";

/// An access, its alignment and its address, and the value that it gives.
pub const LOADS: &str = "\
# an integer's bytes are a number, the least significant first
i8 1 given1+0 = 1
i16 2 given1+0 = 513
i24 1 given1+0 = 197121
i32 4 given1+0 = 2214789633
i8 1 given1+3 = 132
i32 2 local0.2+0 = 2147483520
# a number that has more bits than the integer is poison
i1 1 given1+0 = 1
i1 1 given1+1 = poison
i7 1 given1+0 = 1
i7 1 given1+4 = poison
i9 1 given1+0 = poison
i10 1 given1+0 = 513
i31 2 local0.2+0 = 2147483520
i30 2 local0.2+0 = poison
# one bit of poison, or a part of a pointer, makes an integer poison, also past its width
i1 1 given7+0 = poison
i1 1 given7+1 = poison
i1 1 given7+2 = 1
i8 1 given7+1 = poison
i8 1 given7+2 = 1
i16 2 given7+2 = poison
i15 2 given7+2 = poison
i8 1 given1+6 = poison
i16 2 given1+6 = poison
i32 4 given1+4 = poison
i64 8 given1+0 = poison
i8 1 given1+8 = poison
i64 8 given1+8 = poison
# a pointer is its parts 0 to 7 in order
ptr 8 given1+8 = null+9
ptr 1 given1+8 = null+9
ptr 8 given1+0 = poison
ptr 1 given1+7 = poison
ptr 8 given3+0 = poison
ptr 8 given4+0 = poison
ptr 8 given5+0 = poison
# an address has to be a pointer to a block that is there
i8 1 poison = ub
i8 1 0 = ub
i8 1 null+0 = ub
i8 1 given6+0 = ub
i8 1 local0.1+0 = ub
i8 1 local1.2+0 = ub
# the bytes have to be the block's own; the offset is exact and has no sign
i32 4 given2+0 = 1076895760
i8 1 given2+3 = 64
i8 1 given2+4 = ub
i16 1 given2+3 = ub
i64 4 given2+0 = ub
ptr 8 given1+16 = ub
i8 1 given1+15 = poison
i16 1 given1+18446744073709551615 = ub
i64 1 given1+18446744073709551608 = ub
# the block and the offset have to be aligned
i8 16 given1+0 = 1
i8 32 given1+0 = ub
i16 4 local0.2+0 = ub
i16 2 local0.2+0 = 65408
i16 2 given1+1 = ub
i16 1 given1+1 = 770
i32 4 given1+2 = ub
i32 8 given1+4 = ub
";

/// An access, its alignment, its address and the value stored, and then the bytes of the first block.
pub const STORES: &str = "\
# a number is stored with its least significant byte first
i8 1 given1+0 255 = done ff 02 03 84 ff 00 -- 07 null+9/0 null+9/1 null+9/2 null+9/3 null+9/4 null+9/5 null+9/6 null+9/7
i16 2 given1+2 258 = done 01 02 02 01 ff 00 -- 07 null+9/0 null+9/1 null+9/2 null+9/3 null+9/4 null+9/5 null+9/6 null+9/7
i24 1 given1+1 66051 = done 01 03 02 01 ff 00 -- 07 null+9/0 null+9/1 null+9/2 null+9/3 null+9/4 null+9/5 null+9/6 null+9/7
i32 4 given1+4 4294967294 = done 01 02 03 84 fe ff ff ff null+9/0 null+9/1 null+9/2 null+9/3 null+9/4 null+9/5 null+9/6 null+9/7
i64 8 given1+8 72623859790382856 = done 01 02 03 84 ff 00 -- 07 08 07 06 05 04 03 02 01
i9 1 given1+0 511 = done ff 01 03 84 ff 00 -- 07 null+9/0 null+9/1 null+9/2 null+9/3 null+9/4 null+9/5 null+9/6 null+9/7
i1 1 given1+15 1 = done 01 02 03 84 ff 00 -- 07 null+9/0 null+9/1 null+9/2 null+9/3 null+9/4 null+9/5 null+9/6 01
# poison is stored as poison in each bit of the type, and 0 in those past its width
i1 1 given1+0 poison = done 00~01 02 03 84 ff 00 -- 07 null+9/0 null+9/1 null+9/2 null+9/3 null+9/4 null+9/5 null+9/6 null+9/7
i5 1 given1+1 poison = done 01 00~1f 03 84 ff 00 -- 07 null+9/0 null+9/1 null+9/2 null+9/3 null+9/4 null+9/5 null+9/6 null+9/7
i24 1 given1+0 poison = done -- -- -- 84 ff 00 -- 07 null+9/0 null+9/1 null+9/2 null+9/3 null+9/4 null+9/5 null+9/6 null+9/7
i48 4 given1+4 poison = done 01 02 03 84 -- -- -- -- -- -- null+9/2 null+9/3 null+9/4 null+9/5 null+9/6 null+9/7
i8 1 given1+0 poison = done -- 02 03 84 ff 00 -- 07 null+9/0 null+9/1 null+9/2 null+9/3 null+9/4 null+9/5 null+9/6 null+9/7
i32 4 given1+8 poison = done 01 02 03 84 ff 00 -- 07 -- -- -- -- null+9/4 null+9/5 null+9/6 null+9/7
i9 1 given1+3 poison = done 01 02 03 -- 00~01 00 -- 07 null+9/0 null+9/1 null+9/2 null+9/3 null+9/4 null+9/5 null+9/6 null+9/7
ptr 8 given1+0 poison = done -- -- -- -- -- -- -- -- null+9/0 null+9/1 null+9/2 null+9/3 null+9/4 null+9/5 null+9/6 null+9/7
# a pointer is stored as its parts
ptr 8 given1+0 given2+18446744073709551615 = done given2+18446744073709551615/0 given2+18446744073709551615/1 given2+18446744073709551615/2 given2+18446744073709551615/3 given2+18446744073709551615/4 given2+18446744073709551615/5 given2+18446744073709551615/6 given2+18446744073709551615/7 null+9/0 null+9/1 null+9/2 null+9/3 null+9/4 null+9/5 null+9/6 null+9/7
ptr 1 given1+3 null+0 = done 01 02 03 null+0/0 null+0/1 null+0/2 null+0/3 null+0/4 null+0/5 null+0/6 null+0/7 null+9/3 null+9/4 null+9/5 null+9/6 null+9/7
ptr 8 given1+8 local0.2+4 = done 01 02 03 84 ff 00 -- 07 local0.2+4/0 local0.2+4/1 local0.2+4/2 local0.2+4/3 local0.2+4/4 local0.2+4/5 local0.2+4/6 local0.2+4/7
# a value of the other kind is stored as poison
i64 8 given1+0 given2+1 = done -- -- -- -- -- -- -- -- null+9/0 null+9/1 null+9/2 null+9/3 null+9/4 null+9/5 null+9/6 null+9/7
i8 1 given1+9 null+0 = done 01 02 03 84 ff 00 -- 07 null+9/0 -- null+9/2 null+9/3 null+9/4 null+9/5 null+9/6 null+9/7
ptr 8 given1+0 5 = done -- -- -- -- -- -- -- -- null+9/0 null+9/1 null+9/2 null+9/3 null+9/4 null+9/5 null+9/6 null+9/7
# where it is undefined behaviour the memory stays as it was
i8 1 given1+16 1 = ub 01 02 03 84 ff 00 -- 07 null+9/0 null+9/1 null+9/2 null+9/3 null+9/4 null+9/5 null+9/6 null+9/7
i8 1 poison 1 = ub 01 02 03 84 ff 00 -- 07 null+9/0 null+9/1 null+9/2 null+9/3 null+9/4 null+9/5 null+9/6 null+9/7
i8 1 null+0 1 = ub 01 02 03 84 ff 00 -- 07 null+9/0 null+9/1 null+9/2 null+9/3 null+9/4 null+9/5 null+9/6 null+9/7
i8 1 given6+0 1 = ub 01 02 03 84 ff 00 -- 07 null+9/0 null+9/1 null+9/2 null+9/3 null+9/4 null+9/5 null+9/6 null+9/7
i16 2 given1+1 1 = ub 01 02 03 84 ff 00 -- 07 null+9/0 null+9/1 null+9/2 null+9/3 null+9/4 null+9/5 null+9/6 null+9/7
i8 32 given1+0 1 = ub 01 02 03 84 ff 00 -- 07 null+9/0 null+9/1 null+9/2 null+9/3 null+9/4 null+9/5 null+9/6 null+9/7
i64 8 given1+9 1 = ub 01 02 03 84 ff 00 -- 07 null+9/0 null+9/1 null+9/2 null+9/3 null+9/4 null+9/5 null+9/6 null+9/7
# a store to another block
i8 1 given2+0 1 = done 01 02 03 84 ff 00 -- 07 null+9/0 null+9/1 null+9/2 null+9/3 null+9/4 null+9/5 null+9/6 null+9/7
";

/// Flags, a base, and for each index its type, its value and its scale; and where it leads.
pub const OFFSETS: &str = "\
# an index counts for its scale; without indices it is the base
- given1+4 = given1+4
- given1+4 i64 1 4 = given1+8
- given1+4 i64 3 4 i64 2 1 = given1+18
- null+0 i32 7 3 = null+21
- given1+4 i8 1 0 = given1+4
# indices have a sign
- given1+4 i8 255 4 = given1+0
- given1+4 i8 128 1 = given1+18446744073709551492
- given1+4 i8 127 1 = given1+131
- given1+4 i64 18446744073709551615 1 = given1+3
- given1+4 i1 1 1 = given1+3
# offsets wrap modulo 2^64
- given1+4 i8 251 1 = given1+18446744073709551615
- given1+18446744073709551615 i8 1 1 = given1+0
- given1+5 i64 9223372036854775807 18446744073709551615 = given1+9223372036854775814
- given1+5 i64 9223372036854775808 18446744073709551615 = given1+9223372036854775813
- given1+0 i64 4294967296 4294967296 = given1+0
# a poison base or index gives poison
- poison i8 1 1 = poison
- 4 i8 1 1 = poison
- given1+0 i8 poison 1 = poison
- given1+0 i8 poison 0 = poison
- given1+0 i8 1 1 i8 poison 1 = poison
inbounds given1+0 i8 0 1 i8 poison 1 = poison
# inbounds: the sums are inside the block or at its end
inbounds given1+4 i8 12 1 = given1+16
inbounds given1+4 i8 13 1 = poison
inbounds given1+4 i8 252 1 = given1+0
inbounds given1+4 i8 251 1 = poison
inbounds given2+0 i8 4 1 = given2+4
inbounds given2+0 i8 5 1 = poison
inbounds given1+0 i64 9223372036854775807 18446744073709551615 = poison
# inbounds looks at each sum on the way
inbounds given1+4 i8 13 1 i8 255 1 = poison
inbounds given1+4 i8 12 1 i8 255 1 = given1+15
inbounds given1+4 i8 251 1 i8 5 1 = poison
- given1+4 i8 13 1 i8 255 1 = given1+16
# inbounds looks at the base offset where some index isn't 0
inbounds given1+17 i8 0 1 = given1+17
inbounds given1+17 = given1+17
inbounds given1+17 i8 255 4 = poison
inbounds given1+17 i8 1 0 = poison
inbounds given1+16 i8 1 0 = given1+16
# no block has no bytes
inbounds null+0 i8 0 8 = null+0
inbounds null+0 i8 1 1 = poison
inbounds null+0 i8 1 0 = null+0
inbounds given6+0 i8 1 1 = poison
inbounds given6+0 i8 1 0 = given6+0
inbounds given6+3 i8 0 1 = given6+3
# nuw: no index is negative
inbounds,nuw given1+4 i8 255 1 = poison
inbounds,nuw given1+4 i8 1 1 = given1+5
inbounds,nuw given1+4 i8 255 0 = poison
nuw given1+4 i8 100 1 = given1+104
nuw given1+4 i8 1 1 i8 255 1 = poison
";
