// The inputs of document 01's cases.

// Case A: 0300 0100 02, 0900 0200 02 000101 000301, 0900 0300 02 000201 000401, 0700 0400 0000 000101, 0600 0500 06000000.
pub(crate) const CASE_A: [u8; 44] =
    *b"\x03\0\x01\0\x02\x09\0\x02\0\x02\0\x01\x01\0\x03\x01\x09\0\x03\0\x02\0\x02\x01\0\x04\x01\x07\0\x04\0\0\0\0\x01\x01\x06\0\x05\0\x06\0\0\0";

// Case A's tables and joint run.
pub(crate) const LEFT_A: [u8; 7] = *b"\x02\0\x01\x01\0\x03\x01";

pub(crate) const RIGHT_A: [u8; 7] = *b"\x02\0\x02\x01\0\x04\x01";

pub(crate) const RUN_A: [u8; 5] = *b"\0\0\0\x01\x01";

// One state each, k 1, both with the single row 000100, one step 01 00 00, question back by 1 over true.
pub(crate) const LOOPS: [u8; 38] =
    *b"\x03\0\x01\0\x01\x06\0\x02\0\x01\0\x01\0\x06\0\x03\0\x01\0\x01\0\x07\0\x04\0\0\0\x01\0\0\x06\0\x05\0\x06\x01\0\0";

// One state with the single row 000100.
pub(crate) const ONE_LOOP: [u8; 4] = *b"\x01\0\x01\0";

// One state and no rows.
pub(crate) const NO_ROWS: [u8; 1] = *b"\x01";

// One state with rows of labels 1 to 8 to itself.
pub(crate) const EIGHT_LOOPS: [u8; 25] =
    *b"\x01\0\x01\0\0\x02\0\0\x03\0\0\x04\0\0\x05\0\0\x06\0\0\x07\0\0\x08\0";

// One state with rows of labels 0 to 8 to itself.
pub(crate) const NINE_LOOPS: [u8; 28] =
    *b"\x01\0\0\0\0\x01\0\0\x02\0\0\x03\0\0\x04\0\0\x05\0\0\x06\0\0\x07\0\0\x08\0";

// 16 steps 01 00 00 from states 0 and 0: with one loop each, every step is the left's or the right's.
pub(crate) const TWO_WAY_RUN: [u8; 50] =
    *b"\0\0\x01\0\0\x01\0\0\x01\0\0\x01\0\0\x01\0\0\x01\0\0\x01\0\0\x01\0\0\x01\0\0\x01\0\0\x01\0\0\x01\0\0\x01\0\0\x01\0\0\x01\0\0\x01\0\0";

// 16 moves by one loop.
pub(crate) const SIXTEEN_MOVES: [u8; 33] =
    *b"\0\x01\0\x01\0\x01\0\x01\0\x01\0\x01\0\x01\0\x01\0\x01\0\x01\0\x01\0\x01\0\x01\0\x01\0\x01\0\x01\0";

// 16 idles.
pub(crate) const SIXTEEN_IDLES: [u8; 33] =
    *b"\0\xff\0\xff\0\xff\0\xff\0\xff\0\xff\0\xff\0\xff\0\xff\0\xff\0\xff\0\xff\0\xff\0\xff\0\xff\0\xff\0";

// Three nested forward by 0 over not not true.
pub(crate) const OVER_TWO_NOTS: [u8; 12] = *b"\x05\0\x05\0\x05\0\x02\0\x02\0\0\0";

// Three nested forward by 0 over not not not true.
pub(crate) const OVER_THREE_NOTS: [u8; 14] = *b"\x05\0\x05\0\x05\0\x02\0\x02\0\x02\0\0\0";
