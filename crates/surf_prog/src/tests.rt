//! Requests over a shelf and sinks in memory, as rows of text.

use crate::request::once;
use std::alloc::{AllocError, Global};
use surf_base::{MemoryShelf, MemorySink};

/// A file of one segment of code at 08049000, where it is entered: mov eax, 5; mov ebx, 7; mov ecx, eax; add ecx, ebx; ret.
const SUM: &str = "\
7F 45 4C 46 01 01 01 00 00 00 00 00 00 00 00 00 02 00 03 00 01 00 00 00 00 90 04 08 34 00 00 00 \
00 00 00 00 00 00 00 00 34 00 20 00 01 00 00 00 00 00 00 00 01 00 00 00 54 00 00 00 00 90 04 08 \
00 90 04 08 0F 00 00 00 0F 00 00 00 05 00 00 00 01 00 00 00 B8 05 00 00 00 BB 07 00 00 00 89 C1 \
01 D9 C3";

/// A file of two segments of three bytes each, at 08049000 and behind it: mov eax, 5; ret.
const TWO: &str = "\
7F 45 4C 46 01 01 01 00 00 00 00 00 00 00 00 00 02 00 03 00 01 00 00 00 00 90 04 08 34 00 00 00 \
00 00 00 00 00 00 00 00 34 00 20 00 02 00 00 00 00 00 00 00 01 00 00 00 74 00 00 00 00 90 04 08 \
00 90 04 08 03 00 00 00 03 00 00 00 05 00 00 00 01 00 00 00 01 00 00 00 77 00 00 00 03 90 04 08 \
03 90 04 08 03 00 00 00 03 00 00 00 05 00 00 00 01 00 00 00 B8 05 00 00 00 C3";

/// The front of a file with one segment of code at 08049000, where it is entered; the code follows.
const CODE: &str = "\
7F 45 4C 46 01 01 01 00 00 00 00 00 00 00 00 00 02 00 03 00 01 00 00 00 00 90 04 08 34 00 00 00 \
00 00 00 00 00 00 00 00 34 00 20 00 01 00 00 00 00 00 00 00 01 00 00 00 54 00 00 00 00 90 04 08 \
00 90 04 08 00 00 00 00 00 00 00 00 05 00 00 00 01 00 00 00";

/// The front of a file with a table of jumps at 0804A000.
const TABLE: &str = "\
7F 45 4C 46 01 01 01 00 00 00 00 00 00 00 00 00 02 00 03 00 01 00 00 00 00 90 04 08 34 00 00 00 \
00 00 00 00 00 00 00 00 34 00 20 00 02 00 00 00 00 00 00 00 01 00 00 00 88 00 00 00 00 90 04 08 \
00 90 04 08 00 00 00 00 00 00 00 00 05 00 00 00 01 00 00 00 01 00 00 00 74 00 00 00 00 A0 04 08 \
00 A0 04 08 14 00 00 00 14 00 00 00 04 00 00 00 01 00 00 00 12 90 04 08 18 90 04 08 12 90 04 08 \
18 90 04 08 12 90 04 08";

/// Of a file with the text "hi" at 0804A000 and places of puts and exit at 0804C000.
const PUTS_EXIT: &str = "\
7F 45 4C 46 01 01 01 00 00 00 00 00 00 00 00 00 02 00 03 00 01 00 00 00 00 90 04 08 34 00 00 00 \
94 00 00 00 00 00 00 00 34 00 20 00 03 00 28 00 04 00 00 00 01 00 00 00 82 01 00 00 00 90 04 08 \
00 90 04 08 00 00 00 00 00 00 00 00 05 00 00 00 01 00 00 00 01 00 00 00 34 01 00 00 00 A0 04 08 \
00 A0 04 08 03 00 00 00 03 00 00 00 04 00 00 00 01 00 00 00 01 00 00 00 00 00 00 00 00 C0 04 08 \
00 C0 04 08 00 00 00 00 08 00 00 00 06 00 00 00 01 00 00 00 00 00 00 00 00 00 00 00 00 00 00 00 \
00 00 00 00 00 00 00 00 00 00 00 00 00 00 00 00 00 00 00 00 01 00 00 00 00 00 00 00 00 00 00 00 \
0B 00 00 00 00 00 00 00 00 00 00 00 42 01 00 00 30 00 00 00 02 00 00 00 00 00 00 00 01 00 00 00 \
00 00 00 00 00 00 00 00 03 00 00 00 00 00 00 00 00 00 00 00 37 01 00 00 0B 00 00 00 00 00 00 00 \
00 00 00 00 01 00 00 00 00 00 00 00 00 00 00 00 09 00 00 00 00 00 00 00 00 00 00 00 72 01 00 00 \
10 00 00 00 01 00 00 00 00 00 00 00 01 00 00 00 00 00 00 00 68 69 00 00 70 75 74 73 00 65 78 69 \
74 00 00 00 00 00 00 00 00 00 00 00 00 00 00 00 00 00 01 00 00 00 00 00 00 00 00 00 00 00 12 00 \
00 00 06 00 00 00 00 00 00 00 00 00 00 00 12 00 00 00 00 C0 04 08 07 01 00 00 04 C0 04 08 07 02 \
00 00";

/// The same with puts alone.
const PUTS: &str = "\
7F 45 4C 46 01 01 01 00 00 00 00 00 00 00 00 00 02 00 03 00 01 00 00 00 00 90 04 08 34 00 00 00 \
94 00 00 00 00 00 00 00 34 00 20 00 03 00 28 00 04 00 00 00 01 00 00 00 65 01 00 00 00 90 04 08 \
00 90 04 08 00 00 00 00 00 00 00 00 05 00 00 00 01 00 00 00 01 00 00 00 34 01 00 00 00 A0 04 08 \
00 A0 04 08 03 00 00 00 03 00 00 00 04 00 00 00 01 00 00 00 01 00 00 00 00 00 00 00 00 C0 04 08 \
00 C0 04 08 00 00 00 00 04 00 00 00 06 00 00 00 01 00 00 00 00 00 00 00 00 00 00 00 00 00 00 00 \
00 00 00 00 00 00 00 00 00 00 00 00 00 00 00 00 00 00 00 00 01 00 00 00 00 00 00 00 00 00 00 00 \
0B 00 00 00 00 00 00 00 00 00 00 00 3D 01 00 00 20 00 00 00 02 00 00 00 00 00 00 00 01 00 00 00 \
00 00 00 00 00 00 00 00 03 00 00 00 00 00 00 00 00 00 00 00 37 01 00 00 06 00 00 00 00 00 00 00 \
00 00 00 00 01 00 00 00 00 00 00 00 00 00 00 00 09 00 00 00 00 00 00 00 00 00 00 00 5D 01 00 00 \
08 00 00 00 01 00 00 00 00 00 00 00 01 00 00 00 00 00 00 00 68 69 00 00 70 75 74 73 00 00 00 00 \
00 00 00 00 00 00 00 00 00 00 00 00 00 01 00 00 00 00 00 00 00 00 00 00 00 12 00 00 00 00 C0 04 \
08 07 01 00 00";

/// The same with malloc alone.
const MALLOC: &str = "\
7F 45 4C 46 01 01 01 00 00 00 00 00 00 00 00 00 02 00 03 00 01 00 00 00 00 90 04 08 34 00 00 00 \
94 00 00 00 00 00 00 00 34 00 20 00 03 00 28 00 04 00 00 00 01 00 00 00 67 01 00 00 00 90 04 08 \
00 90 04 08 00 00 00 00 00 00 00 00 05 00 00 00 01 00 00 00 01 00 00 00 34 01 00 00 00 A0 04 08 \
00 A0 04 08 03 00 00 00 03 00 00 00 04 00 00 00 01 00 00 00 01 00 00 00 00 00 00 00 00 C0 04 08 \
00 C0 04 08 00 00 00 00 04 00 00 00 06 00 00 00 01 00 00 00 00 00 00 00 00 00 00 00 00 00 00 00 \
00 00 00 00 00 00 00 00 00 00 00 00 00 00 00 00 00 00 00 00 01 00 00 00 00 00 00 00 00 00 00 00 \
0B 00 00 00 00 00 00 00 00 00 00 00 3F 01 00 00 20 00 00 00 02 00 00 00 00 00 00 00 01 00 00 00 \
00 00 00 00 00 00 00 00 03 00 00 00 00 00 00 00 00 00 00 00 37 01 00 00 08 00 00 00 00 00 00 00 \
00 00 00 00 01 00 00 00 00 00 00 00 00 00 00 00 09 00 00 00 00 00 00 00 00 00 00 00 5F 01 00 00 \
08 00 00 00 01 00 00 00 00 00 00 00 01 00 00 00 00 00 00 00 68 69 00 00 6D 61 6C 6C 6F 63 00 00 \
00 00 00 00 00 00 00 00 00 00 00 00 00 00 00 01 00 00 00 00 00 00 00 00 00 00 00 12 00 00 00 00 \
C0 04 08 07 01 00 00";

/// The same with read alone.
const READ: &str = "\
7F 45 4C 46 01 01 01 00 00 00 00 00 00 00 00 00 02 00 03 00 01 00 00 00 00 90 04 08 34 00 00 00 \
94 00 00 00 00 00 00 00 34 00 20 00 03 00 28 00 04 00 00 00 01 00 00 00 65 01 00 00 00 90 04 08 \
00 90 04 08 00 00 00 00 00 00 00 00 05 00 00 00 01 00 00 00 01 00 00 00 34 01 00 00 00 A0 04 08 \
00 A0 04 08 03 00 00 00 03 00 00 00 04 00 00 00 01 00 00 00 01 00 00 00 00 00 00 00 00 C0 04 08 \
00 C0 04 08 00 00 00 00 04 00 00 00 06 00 00 00 01 00 00 00 00 00 00 00 00 00 00 00 00 00 00 00 \
00 00 00 00 00 00 00 00 00 00 00 00 00 00 00 00 00 00 00 00 01 00 00 00 00 00 00 00 00 00 00 00 \
0B 00 00 00 00 00 00 00 00 00 00 00 3D 01 00 00 20 00 00 00 02 00 00 00 00 00 00 00 01 00 00 00 \
00 00 00 00 00 00 00 00 03 00 00 00 00 00 00 00 00 00 00 00 37 01 00 00 06 00 00 00 00 00 00 00 \
00 00 00 00 01 00 00 00 00 00 00 00 00 00 00 00 09 00 00 00 00 00 00 00 00 00 00 00 5D 01 00 00 \
08 00 00 00 01 00 00 00 00 00 00 00 01 00 00 00 00 00 00 00 68 69 00 00 72 65 61 64 00 00 00 00 \
00 00 00 00 00 00 00 00 00 00 00 00 00 01 00 00 00 00 00 00 00 00 00 00 00 12 00 00 00 00 C0 04 \
08 07 01 00 00";

/// Slices. In each row: the file, or its beginning with bytes from a place on; the words; which call of the shelf, of the output
/// and of the error stream fails; the status; the lines of the output and of the error stream, with / between them.
const SLICES: &str = "\
sum|slice a --at 0x0804900c --round 0|,,|0|slice 0804900c round 0 lane 2/08049000/08049005/0804900a/0804900c/end 4 addresses 0 warnings|
sum|slice a --at 0x804900C --round 0000000000|,,|0|slice 0804900c round 0 lane 2/08049000/08049005/0804900a/0804900c/end 4 addresses 0 warnings|
sum|slice a --at 0x0804900a --round 0|,,|0|slice 0804900a round 0 lane 2/08049000/0804900a/end 2 addresses 0 warnings|
sum|--lane 3 slice --round=0 a --at 0x0804900a|,,|0|slice 0804900a round 0 lane 3/08049000/0804900a/end 2 addresses 0 warnings|
sum|slice a --entry 0x8049005 --at 0x0804900c --round 0|,,|0|slice 0804900c round 0 lane 2/08049005/0804900a/0804900c/end 3 addresses 0 warnings|
sum|slice a --entry nobody --at 0x0804900c --round 0|,,|5||surf: absent entry
sum @16 03|slice a --at 0x0844900c --round 0|,,|0|slice 0844900c round 0 lane 2/08449000/08449005/0844900a/0844900c/end 4 addresses 0 warnings|
sum|slice a --at 0x08049001 --round 0|,,|5||surf: absent 08049001
sum @24 0F|slice a --at 0x0804900c --round 0|,,|5||surf: absent entry
sum @24 0E|slice a --at 0x0804900c --round 0|,,|5||surf: absent 0804900c
two @68 02 00 00 00 02 @88 76 @92 02 90 04 08 02 90 04 08 03 00 00 00 03 @116 89 C1 01 CA C3|slice a --at 0x08049002 --round 0|,,|0|slice 08049002 round 0 lane 2/08049000/08049002/end 2 addresses 0 warnings|";

/// Questions on rounds.
const ROUNDS: &str = "\
code B8 05 00 00 00 BB 07 00 00 00 89 C1 01 D9 C3|slice a --at 0x0804900c --round 0|,,|0|slice 0804900c round 0 lane 2/08049000/08049005/0804900a/0804900c/end 4 addresses 0 warnings|
code B8 05 00 00 00 BB 07 00 00 00 89 C1 01 D9 C3|slice a --at 0x0804900a --round 0|,,|0|slice 0804900a round 0 lane 2/08049000/0804900a/end 2 addresses 0 warnings|
code B8 05 00 00 00 31 C0 89 C1 C3|slice a --at 0x08049007 --round 0|,,|0|slice 08049007 round 0 lane 2/08049000/08049005/08049007/end 3 addresses 0 warnings|
code B8 00 01 00 00 B0 01 89 C1 C3|slice a --at 0x08049007 --round 0|,,|0|slice 08049007 round 0 lane 2/08049000/08049005/08049007/end 3 addresses 0 warnings|
code 85 C0 74 07 B9 01 00 00 00 EB 05 B9 02 00 00 00 89 CA 89 DE C3|slice a --at 0x08049010 --round 0|,,|0|slice 08049010 round 0 lane 2/08049000/08049002/08049004/0804900b/08049010/end 5 addresses 0 warnings|
code 85 C0 74 07 B9 01 00 00 00 EB 05 B9 02 00 00 00 89 CA 89 DE C3|slice a --at 0x08049012 --round 0|,,|0|slice 08049012 round 0 lane 2/08049012/end 1 addresses 0 warnings|
code 31 C9 83 EC 28 89 0C 8C 41 83 F9 0A 7C F7 83 C4 28 C3|slice a --at 0x08049005 --round 0|,,|0|slice 08049005 round 0 lane 2/08049000/08049002/08049005/08049008/08049009/0804900c/end 6 addresses 0 warnings|
code 31 C9 83 EC 28 89 0C 8C 41 83 F9 0A 7C F7 83 C4 28 C3|values a --at 0x08049005 --round 0|,,|0|values 08049005 round 0 lane 2/node 08049000 - 08049005/eax top/ecx global:1[0,9]/edx top/ebx top/esp frame.08049000:0[-40,-40]/ebp top/esi top/edi top/end 1 nodes 0 warnings|
code 31 C9 83 EC 28 89 0C 8C 41 83 F9 0A 7E F7 83 C4 28 C3|slice a --at 0x08049011 --round 0|,,|1|slice 08049011 round 0 lane 2/08049000/08049002/08049005/08049008/08049009/0804900c/0804900e/08049011/end 8 addresses 1 warnings/warnings round 0 lane 2/warning ReturnSlot 08049005/end 1 warnings|
table 83 F8 04 77 07 FF 24 85 00 A0 04 08 B9 00 00 00 00 C3 B9 01 00 00 00 C3 B9 02 00 00 00 C3|slice a --at 0x08049012 --round 0|,,|5||surf: absent 08049012
table 83 F8 04 77 07 FF 24 85 00 A0 04 08 B9 00 00 00 00 C3 B9 01 00 00 00 C3 B9 02 00 00 00 C3|slice a --at 0x08049005 --round 0|,,|1|slice 08049005 round 0 lane 2/08049000/08049003/08049005/end 3 addresses 1 warnings/warnings round 0 lane 2/warning UnresolvedJump 08049005/end 1 warnings|
table 83 F8 04 77 07 FF 24 85 00 A0 04 08 B9 00 00 00 00 C3 B9 01 00 00 00 C3 B9 02 00 00 00 C3|slice a --at 0x08049012 --round 1|,,|0|slice 08049012 round 1 lane 2/08049000/08049003/08049005/08049012/end 4 addresses 0 warnings|
code 8D 4C 24 04 83 E4 F0 FF 71 FC 55 89 E5 51 83 EC 04 B8 00 00 00 00 8B 4D FC C9 8D 61 FC C3|values a --at 0x0804901d --round 0|,,|0|values 0804901d round 0 lane 2/node 08049000 - 0804901d/eax global:0[0,0]/ecx frame.08049000:0[4,4]/edx top/ebx top/esp frame.08049000:0[0,0]/ebp top/esi top/edi top/end 1 nodes 0 warnings|
puts_exit 68 00 A0 04 08 E8 16 00 00 00 83 C4 04 6A 00 E8 12 00 00 00 CC CC CC CC CC CC CC CC CC CC CC CC FF 25 00 C0 04 08 FF 25 04 C0 04 08|slice a --at 0xf0000000 --skip-sp --round 0|,,|0|slice f0000000 round 0 lane 2/08049000/08049005/f0000000/end 3 addresses 0 warnings|
code 6A 01 E8 19 00 00 00 83 C4 04 6A 02 E8 0F 00 00 00 83 C4 04 89 C1 C3 CC CC CC CC CC CC CC CC CC 8B 44 24 04 C3|slice a --at 0x08049014 --skip-sp --round 0 --lane 1|,,|0|slice 08049014 round 0 lane 1/0804900a/08049014/08049020/end 3 addresses 0 warnings|
code 6A 01 E8 19 00 00 00 83 C4 04 6A 02 E8 0F 00 00 00 83 C4 04 89 C1 C3 CC CC CC CC CC CC CC CC CC 8B 44 24 04 C3|slice a --at 0x08049014 --skip-sp --round 0 --lane 0|,,|0|slice 08049014 round 0 lane 0/08049000/0804900a/08049014/08049020/end 4 addresses 0 warnings|
code E8 0B 00 00 00 C7 00 01 00 00 00 C3 CC CC CC CC 8D 44 24 FC C3|slice a --at 0x08049005 --round 0|,,|1|slice 08049005 round 0 lane 2/08049000/08049005/08049010/end 3 addresses 1 warnings/warnings round 0 lane 2/warning UnknownWrite 08049005/end 1 warnings|
code 6A 03 E8 09 00 00 00 83 C4 04 C3 CC CC CC CC CC 8B 44 24 04 83 F8 01 7E 0D 48 50 E8 F0 FF FF FF 0F AF 44 24 08 59 C3|slice a --at 0x0804901a --skip-sp --round 0|,,|0|slice 0804901a round 0 lane 2/08049000/08049010/08049014/08049017/08049019/0804901a/end 6 addresses 0 warnings|
malloc 6A 0C FF 15 00 C0 04 08 83 C4 04 C7 40 0C 01 00 00 00 C3|slice a --at 0x0804900b --skip-sp --round 0|,,|1|slice 0804900b round 0 lane 2/08049000/08049002/0804900b/f0000000/end 4 addresses 1 warnings/warnings round 0 lane 2/warning HeapOverrun 0804900b/end 1 warnings|
malloc 6A 0C FF 15 00 C0 04 08 83 C4 04 C7 40 08 01 00 00 00 C3|slice a --at 0x0804900b --skip-sp --round 0|,,|0|slice 0804900b round 0 lane 2/08049000/08049002/0804900b/f0000000/end 4 addresses 0 warnings|
malloc 50 90 FF 15 00 C0 04 08 83 C4 04 C7 40 08 01 00 00 00 C3|slice a --at 0x0804900b --skip-sp --round 0|,,|1|slice 0804900b round 0 lane 2/08049000/08049002/0804900b/f0000000/end 4 addresses 1 warnings/warnings round 0 lane 2/warning HeapOverrun 0804900b/end 1 warnings|
code A3 00 10 00 B0 C3|slice a --at 0x08049000 --round 0|,,|1|slice 08049000 round 0 lane 2/08049000/end 1 addresses 1 warnings/warnings round 0 lane 2/warning UnknownWrite 08049000/end 1 warnings|
code A3 00 00 00 00 C3|slice a --at 0x08049000 --round 0|,,|0|slice 08049000 round 0 lane 2/08049000/end 1 addresses 0 warnings|
code B8 05 00 00 00 BB 07 00 00 00 89 C1 01 D9 C3|slice a --at 0x0804900c --round 7|,,|5||surf: absent round 7
code B8 05 00 00 00 BB 07 00 00 00 89 C1 01 D9 C3|slice a --at 0x0804900c|,,|0|slice 0804900c round 1 lane 2/08049000/08049005/0804900a/0804900c/end 4 addresses 0 warnings|
puts 8D 4C 24 04 83 E4 F0 FF 71 FC 55 89 E5 51 83 EC 14 C7 45 F4 00 00 00 00 C7 45 F0 00 00 00 00 EB 0A 8B 45 F0 01 45 F4 83 45 F0 01 83 7D F0 09 7E F0 83 EC 0C 68 00 A0 04 08 E8 22 00 00 00 83 C4 10 8B 45 F4 8B 4D FC C9 8D 61 FC C3 CC CC CC CC CC CC CC CC CC CC CC CC CC CC CC CC CC CC CC CC FF 25 00 C0 04 08|slice a --at 0x08049041 --skip-sp --round 0|,,|0|slice 08049041 round 0 lane 2/0804900b/08049011/08049018/08049021/08049024/08049027/0804902b/0804902f/08049041/end 9 addresses 0 warnings|
table 83 F8 04 77 07 FF 24 85 00 A0 04 08 B9 00 00 00 00 C3 B9 01 00 00 00 C3 B9 02 00 00 00 C3|locations a --round 1|,,|0|locations round 1 lane 2/global 08049000 0804901e/global 0804a000 0804a004/global 0804a004 0804a008/global 0804a008 0804a00c/global 0804a00c 0804a010/global 0804a010 0804a014/frame 08049000 -1048576 0/frame 08049000 0 4/frame 08049000 4 65536/end 9 cells 0 warnings|
code B8 05 00 00 00 C3|graph a --round 0|,,|0|{\"control\":[],\"edges\":[],\"lane\":2,\"nodes\":[{\"at\":134516736,\"proc\":134516736,\"sites\":[]},{\"at\":134516741,\"proc\":134516736,\"sites\":[]}],\"round\":0,\"sp\":[]}|
malloc 6A 08 FF 15 00 C0 04 08 83 C4 04 85 C0 74 09 C7 00 07 00 00 00 8B 08 90 C3|values a --at 0x08049017 --round 0|,,|0|values 08049017 round 0 lane 2/node 08049000 - 08049017/eax heap.08049002:0[0,0]/ecx global:0[7,7]/edx top/ebx top/esp frame.08049000:0[0,0]/ebp top/esi top/edi top/end 1 nodes 0 warnings|
code 31 C0 B9 0A 00 00 00 83 EC 28 89 E7 F3 AB 8B 14 24 83 C4 28 C3|values a --at 0x08049011 --round 0|,,|0|values 08049011 round 0 lane 2/node 08049000 - 08049011/eax global:0[0,0]/ecx global:0[0,0]/edx global:0[0,0]/ebx top/esp frame.08049000:0[-40,-40]/ebp top/esi top/edi frame.08049000:0[0,0]/end 1 nodes 0 warnings|
code 31 C0 B9 0A 00 00 00 83 EC 28 89 E7 F3 AB 8B 14 24 83 C4 28 C3|slice a --at 0x0804900e --round 0|,,|0|slice 0804900e round 0 lane 2/08049000/08049002/08049007/0804900a/0804900c/0804900e/end 6 addresses 0 warnings|
code 31 C0 B9 0B 00 00 00 83 EC 28 89 E7 F3 AB 8B 14 24 83 C4 28 C3|slice a --at 0x0804900c --round 0|,,|1|slice 0804900c round 0 lane 2/08049000/08049002/08049007/0804900a/0804900c/end 5 addresses 1 warnings/warnings round 0 lane 2/warning ReturnSlot 0804900c/end 1 warnings|
read 83 EC 10 89 E0 6A 10 50 6A 00 FF 15 00 C0 04 08 8B 44 24 0C 83 C4 1C C3|slice a --at 0x08049010 --skip-sp --round 0|,,|0|slice 08049010 round 0 lane 2/08049003/08049005/08049007/08049008/0804900a/08049010/f0000000/end 7 addresses 0 warnings|
code B8 05 00 00 00 BB 07 00 00 00 89 C1 01 D9 C3|forward a --at 0x08049000 --round 0|,,|0|forward 08049000 round 0 lane 2/08049000/0804900a/0804900c/end 3 addresses 0 warnings|
code 85 C0 74 07 B9 01 00 00 00 EB 05 B9 02 00 00 00 89 CA 89 DE C3|forward a --at 0x08049000 --round 0|,,|0|forward 08049000 round 0 lane 2/08049000/08049002/08049004/08049009/0804900b/08049010/end 6 addresses 0 warnings|
code B8 05 00 00 00 BB 07 00 00 00 89 C1 01 D9 C3|chop a --from 0x0804900c --at 0x08049000 --round 0|,,|0|chop 0804900c 08049000 round 0 lane 2/end 0 addresses 0 warnings|
code 85 C0 74 07 B9 01 00 00 00 EB 05 B9 02 00 00 00 89 CA 89 DE C3|why a --from 0x08049000 --at 0x08049010 --round 0|,,|0|why 08049000 08049010 round 0 lane 2/08049000/data 08049002/control 08049004/data 08049010/end 3 steps 0 warnings|
code B8 05 00 00 00 BB 07 00 00 00 89 C1 01 D9 C3|why a --from 0x08049001 --at 0x08049002 --round 0|,,|5||surf: absent 08049001
code B8 05 00 00 00 BB 07 00 00 00 89 C1 01 D9 C3|chop a --from 0x08049000 --at 0x08049002 --round 0|,,|5||surf: absent 08049002
code BB 01 00 00 00 E8 0D 00 00 00 BB 02 00 00 00 E8 03 00 00 00 89 D9 C3 90 C3|slice a --at 0x08049014 --lane 0 --round 0 --skip-sp|,,|0|slice 08049014 round 0 lane 0/08049000/0804900a/08049014/end 3 addresses 0 warnings|
code BB 01 00 00 00 E8 0D 00 00 00 BB 02 00 00 00 E8 03 00 00 00 89 D9 C3 90 C3|matched a --at 0x08049014 --lane 0 --round 0 --skip-sp|,,|0|matched 08049014 round 0 lane 0/0804900a/08049014/end 2 addresses 0 warnings|";

/// Faults of the outside.
const FAULTS: &str = "\
sum|slice a --at 0x0804900c --round 0|,2,|6|slice 0804900c round 0 lane 2|surf: output
sum|slice a --at 0x0804900c --round 0|,1,|6||surf: output
sum|slice a --at 0x0804900c --round 0|,7,|0|slice 0804900c round 0 lane 2/08049000/08049005/0804900a/0804900c/end 4 addresses 0 warnings|
sum|slice a --at 0x0804900c --round 0|1,,|3||surf: shelf a
sum|slice a --at 0x0804900c --round 0|1,,1|3||
sum|slice a --at 0x0804900c --round 0|1,,2|3||surf: shelf a";

/// Words that ask for nothing, and files that have no image.
const REFUSED: &str = "\
sum||,,|2||surf: words
sum|slice a --round 0|,,|2||surf: words
sum|slice a --at 0x1|,,|5||surf: absent 00000001
sum|slice a --at 0x1 --lane 4|,,|2||surf: words
sum|chop a --at 0x1|,,|2||surf: words
sum|gen 1 1|,,|2||surf: words
sum|replay a t --at 0x1|,,|2||surf: words
sum|slice a --at 12 --round 0|,,|2||surf: words
sum|values a|,,|2||surf: words
sum|trace a --extern puts|,,|2||surf: words
sum|serve a s|,,|2||surf: words
sum|nothing a|,,|2||surf: words
sum|list a b|,,|2||surf: words
sum|list a --steps 0|,,|2||surf: words
sum @0 00|list a|,,|4||surf: image Magic
sum @4 02|list a|,,|4||surf: image Class
sum @18 3E|list a|,,|4||surf: image Machine
sum @16 01|list a|,,|4||surf: image Kind
sum @44 00|list a|,,|4||surf: image Header 65535
sum @44 02|list a|,,|4||surf: image Short 99
sum @44 41|list a|,,|4||surf: image TooMany
sum @68 10|list a|,,|4||surf: image Header 0
sum @63 FF|list a|,,|4||surf: image Range 0
sum @76 07|list a|,,|4||surf: image WritableCode 0
|slice a --at 0x1 --round 0|,,|4||surf: image Short 0";

/// Lists of instructions.
const LISTS: &str = "\
sum @68 1E 00 00 00 1E @84 8D 4C 24 04 83 E4 F0 FF 71 FC 55 89 E5 51 83 EC 04 B8 00 00 00 00 8B 4D FC C9 8D 61 FC C3|list a --steps 3|,,|0|08049000 lea ecx, [esp+0x00000004]/08049004 and esp, 0xfffffff0/08049007 push dword [ecx+0xfffffffc]/end 3|
sum @68 1E 00 00 00 1E @84 8D 4C 24 04 83 E4 F0 FF 71 FC 55 89 E5 51 83 EC 04 B8 00 00 00 00 8B 4D FC C9 8D 61 FC C3|list a --at 0x08049000 --steps 00003|,,|0|08049000 lea ecx, [esp+0x00000004]/08049004 and esp, 0xfffffff0/08049007 push dword [ecx+0xfffffffc]/end 3|
sum @68 1E 00 00 00 1E @84 8D 4C 24 04 83 E4 F0 FF 71 FC 55 89 E5 51 83 EC 04 B8 00 00 00 00 8B 4D FC C9 8D 61 FC C3|list a --at 0x0804901d|,,|0|0804901d ret/end 1|
sum @68 1E 00 00 00 1E @84 8D 4C 24 04 83 E4 F0 FF 71 FC 55 89 E5 51 83 EC 04 B8 00 00 00 00 8B 4D FC C9 8D 61 FC C3|list a --at 0x08049019 --steps 2|,,|0|08049019 leave/0804901a lea esp, [ecx+0xfffffffc]/end 2|
sum @68 1E 00 00 00 1E @84 8D 4C 24 04 83 E4 F0 FF 71 FC 55 89 E5 51 83 EC 04 B8 00 00 00 00 8B 4D FC C9 8D 61 FC C3|list a --entry 0x08049019 --steps=2|,,|0|08049019 leave/0804901a lea esp, [ecx+0xfffffffc]/end 2|
sum @68 1E 00 00 00 1E @84 8D 4C 24 04 83 E4 F0 FF 71 FC 55 89 E5 51 83 EC 04 B8 00 00 00 00 8B 4D FC C9 8D 61 FC C3|list a --at 0x0804901e|,,|5||surf: absent 0804901e
sum @68 1E 00 00 00 1E @84 8D 4C 24 04 83 E4 F0 FF 71 FC 55 89 E5 51 83 EC 04 B8 00 00 00 00 8B 4D FC C9 8D 61 FC C3|list a --at 0x1000|,,|5||surf: absent 00001000
sum|list b|,,|3||surf: shelf b
two|list a|,,|0|08049000 mov eax, 0x5/08049005 ret/end 2|
two @108 06|list a|,,|0|end 0|
sum @68 04 00 00 00 04 @84 B8 05 00 00|list a|,,|0|end 0|
sum @68 03 00 00 00 03 @84 FF FF C3|list a|,,|0|end 0|";

/// Runs of the machine.
const TRACES: &str = "\
sum|trace a|,,|0|trace 08049000/0 08049000/1 08049005/2 0804900a 0/3 0804900c 1 2/4 0804900e/end return 5 steps|
sum|trace a --steps 2 --seed 7|,,|0|trace 08049000/0 08049000/1 08049005/end limit 2 steps|
sum|trace a --entry 0x0804900e|,,|0|trace 0804900e/0 0804900e/end return 1 steps|
sum|trace a --at 0x0804900c|,,|0|trace 08049000/0 08049000/1 08049005/2 0804900a 0/3 0804900c 1 2/4 0804900e/dynamic 0804900c occurrence 3/08049000/08049005/0804900a/0804900c/end return 5 steps|
sum|trace a --at 0x0804900a --steps 3|,,|0|trace 08049000/0 08049000/1 08049005/2 0804900a 0/dynamic 0804900a occurrence 2/08049000/0804900a/end limit 3 steps|
sum|trace a --at 0x08049001|,,|5||surf: absent 08049001
sum|trace a --at 0x0804900a --steps 2|,,|5||surf: absent 0804900a
sum @68 09 00 00 00 09 @84 B9 02 00 00 00 49 75 FD C3|trace a --at 0x08049005|,,|0|trace 08049000/0 08049000/1 08049005 0/2 08049006 1/3 08049005 1/4 08049006 3/5 08049008/dynamic 08049005 occurrence 3/08049000/08049005/end return 6 steps|
sum|trace a --entry 0x08049100|,,|5||surf: absent entry
sum @68 06 00 00 00 06 @84 A3 00 00 00 00 C3|trace a|,,|0|trace 08049000/end fault 0 steps|
sum @68 01 00 00 00 01 @84 F4|trace a --extern puts:stop|,,|0|trace 08049000/0 08049000/end halt 1 steps|
sum @68 03 00 00 00 03 @84 50 59 C3|trace a|,,|0|trace 08049000/0 08049000/1 08049001 0/2 08049002 1/end return 3 steps|
sum @68 03 00 00 00 03 @84 50 59 C3|trace a --skip-sp|,,|0|trace 08049000/0 08049000/1 08049001 0/2 08049002/end return 3 steps|
sum @68 03 00 00 00 03 @84 50 59 C3|trace a --at 0x08049002|,,|0|trace 08049000/0 08049000/1 08049001 0/2 08049002 1/dynamic 08049002 occurrence 2/08049000/08049001/08049002/end return 3 steps|
sum @68 03 00 00 00 03 @84 50 59 C3|trace a --at 0x08049002 --skip-sp|,,|0|trace 08049000/0 08049000/1 08049001 0/2 08049002/dynamic 08049002 occurrence 2/08049002/end return 3 steps|
sum|trace a|,3,|6|trace 08049000/0 08049000|surf: output";

/// Puts a byte at a place of some bytes, or behind them.
fn put(bytes: &mut Vec<u8>, at: usize, byte: u8) -> Result<(), AllocError> {
    match bytes.get_mut(at) {
        Some(old) => *old = byte,
        None => bytes.push(byte)?,
    }
    Ok(())
}

/// Writes bytes of two digits behind some bytes, and behind `@N` from the place N on.
fn write(bytes: &mut Vec<u8>, text: &str) -> Result<(), AllocError> {
    let mut at = bytes.len();
    for word in text.split_whitespace() {
        if let Some(place) = word.strip_prefix('@') {
            at = place.parse().unwrap_or(0);
        } else if let Ok(byte) = u8::from_str_radix(word, 16) {
            put(bytes, at, byte)?;
            at = at.wrapping_add(1);
        }
    }
    Ok(())
}

/// The front of a file, behind which its code stands.
fn front(base: &str) -> &str {
    match base {
        "table" => TABLE,
        "puts_exit" => PUTS_EXIT,
        "puts" => PUTS,
        "malloc" => MALLOC,
        "read" => READ,
        _ => CODE,
    }
}

/// A file of fewer than 256 bytes of code.
fn coded(alloc: Global, base: &str, code: &str) -> Result<Vec<u8>, AllocError> {
    let mut file = Vec::new(alloc);
    write(&mut file, front(base))?;
    let start = file.len();
    write(&mut file, code)?;
    let [len, ..] = file.len().wrapping_sub(start).to_le_bytes();
    put(&mut file, 68, len)?;
    put(&mut file, 72, len)?;
    Ok(file)
}

/// The file of a row.
fn file_of(alloc: Global, text: &str) -> Result<Vec<u8>, AllocError> {
    let (base, changes) = text.split_once(' ').unwrap_or((text, ""));
    let mut file = Vec::new(alloc);
    match base {
        "" => {}
        "sum" => write(&mut file, SUM)?,
        "two" => write(&mut file, TWO)?,
        _ => return coded(alloc, base, changes),
    }
    write(&mut file, changes)?;
    Ok(file)
}

/// The text of lines with / between them.
fn lines_of(alloc: Global, text: &str) -> Result<Vec<u8>, AllocError> {
    let mut lines = Vec::new(alloc);
    if !text.is_empty() {
        for line in text.split('/') {
            lines.extend_from_slice(line.as_bytes())?;
            lines.push(10)?;
        }
    }
    Ok(lines)
}

/// The call that fails, if one does.
fn failing(alloc: Global, text: &str) -> Result<Vec<u32>, AllocError> {
    let mut calls = Vec::new(alloc);
    if let Ok(call) = text.parse() {
        calls.push(call)?;
    }
    Ok(calls)
}

/// The status, and what went to the output and to the error stream.
#[derive(Drop)]
struct Ended {
    status: u8,
    out: MemorySink,
    err: MemorySink,
}

/// Makes a request of a shelf with one file, named a.
fn request(alloc: Global, file: Vec<u8>, line: &str, faults: &str) -> Result<Ended, AllocError> {
    let (shelf_fails, others) = faults.split_once(',').unwrap_or(("", ""));
    let (out_fails, err_fails) = others.split_once(',').unwrap_or(("", ""));
    let mut shelf = MemoryShelf::new(alloc, failing(alloc, shelf_fails)?);
    shelf.add(alloc, String::from_str(alloc, "a")?, file)?;
    let mut out = MemorySink::new(alloc, 65_536, failing(alloc, out_fails)?)?;
    let mut err = MemorySink::new(alloc, 256, failing(alloc, err_fails)?)?;
    let mut words = Vec::new(alloc);
    for word in line.split(' ') {
        words.push(String::from_str(alloc, word)?)?;
    }
    let status = once(alloc, &words, &mut shelf, &mut out, &mut err);
    Ok(Ended { status, out, err })
}

/// Whether a request ended with this status and these lines.
fn ends(alloc: Global, ended: &Ended, told: &str) -> Result<bool, AllocError> {
    let (status, lines) = told.split_once('|').unwrap_or(("", ""));
    let (out, err) = lines.split_once('|').unwrap_or(("", ""));
    Ok(
        status.parse() == Ok(ended.status)
            && ended.out.written() == lines_of(alloc, out)?.as_slice()
            && ended.err.written() == lines_of(alloc, err)?.as_slice(),
    )
}

/// Whether a row tells how its request ends.
fn holds(alloc: Global, row: &str) -> Result<bool, AllocError> {
    let (file, rest) = row.split_once('|').unwrap_or(("", ""));
    let (words, rest) = rest.split_once('|').unwrap_or(("", ""));
    let (faults, told) = rest.split_once('|').unwrap_or(("", ""));
    let ended = request(alloc, file_of(alloc, file)?, words, faults)?;
    ends(alloc, &ended, told)
}

#[test]
fn requests(rt: HostRuntime) -> Result<(), AllocError> {
    for table in [SLICES, ROUNDS, FAULTS, REFUSED, LISTS, TRACES] {
        for row in table.lines() {
            assert!(rt; holds(rt.alloc(), row)?, "{row}");
        }
    }
    Ok(())
}

/// A file of so many moves of two bytes and a return, fewer than 65,536 bytes.
fn moves(alloc: Global, count: u16) -> Result<Vec<u8>, AllocError> {
    let mut file = file_of(alloc, "sum")?;
    file.truncate(84);
    for place in [68usize, 72] {
        let [low, high] = (count.wrapping_mul(2) | 1).to_le_bytes();
        put(&mut file, place, low)?;
        put(&mut file, place.wrapping_add(1), high)?;
    }
    for _ in 0..count {
        file.extend_from_slice(&[0x89, 0xC1])?;
    }
    file.push(0xC3)?;
    Ok(file)
}

#[test]
fn long_code(rt: HostRuntime) -> Result<(), AllocError> {
    let alloc = rt.alloc();
    let list = request(alloc, moves(alloc, 1001)?, "list a", ",,")?;
    assert!(rt;
        list.out
            .written()
            .ends_with(b"080497ce mov ecx, eax\nend 1000\n")
    );
    Ok(())
}
