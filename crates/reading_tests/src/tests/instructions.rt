//! Bytes and the instruction that they are, as text.

use super::bytes_of;
use ia32_decode::{NotDecoded, decode};
use ia32_print::{print_instr, write_instr};
use std::alloc::{AllocError, Global};
use surf_base::{MemorySink, SinkFailed};

/// Where the instructions stand.
const AT: u32 = 0x1000;

/// Spellings with commas between them, and the text of each.
const FORMS: &str = "00 C8 = add al, cl
38 E0 = cmp al, ah
83 7D FC 80 = cmp dword [ebp+0xfffffffc], 0xffffff80
88 C1 = mov cl, al
66 8B 07 = mov ax, word [edi]
A3 44 33 22 11 = mov dword [0x11223344], eax
65 A1 00 00 00 00 = mov eax, dword [gs:0x00000000]
C6 00 7F = mov byte [eax], 0x7f
53 = push ebx
68 78 56 34 12 = push 0x12345678
8F 00 = pop dword [eax]
66 97 = xchg ax, di
84 C9 = test cl, cl
66 F7 C0 02 01 = test ax, 0x102
66 FF C0 = inc ax
4C = dec esp
F7 D1 = not ecx
F6 E1 = mul cl
F7 26 = mul dword [esi]
69 C1 10 27 00 00 = imul eax, ecx, 0x2710
66 6B C0 F6 = imul ax, ax, 0xfff6
C0 E0 03 = shl al, 0x3
C0 C0 01 = rol al, 0x1
D3 0E = ror dword [esi], cl
0F B6 C4 = movzx eax, ah
66 0F B6 C1 = movzx ax, cl
C9 = leave
E8 FB FF FF FF = call 0x00001000
2E F3 C3 = ret
FF 24 85 00 00 00 00 = jmp dword [eax*4]
90 = nop
F3 0F 1E FB = endbr32
0F 0B = ud2
F6 F1 = div cl
F6 FB = idiv bl
F7 3F = idiv dword [edi]
A4 = movsb
F3 AB = rep stosd
FD = std
8B 0D 44 33 22 11 = mov ecx, dword [0x11223344]
8B 04 24 = mov eax, dword [esp]
8B 04 8B = mov eax, dword [ebx+ecx*4]
8B 04 25 44 33 22 11 = mov eax, dword [0x11223344]
8B 04 A0 = mov eax, dword [eax]
8B 44 4D 10 = mov eax, dword [ebp+ecx*2+0x00000010]
8B 83 00 01 00 00 = mov eax, dword [ebx+0x00000100]
8B 84 C8 44 33 22 11 = mov eax, dword [eax+ecx*8+0x11223344]
8B 40 80 = mov eax, dword [eax+0xffffff80]
65 8B 07 = mov eax, dword [gs:edi]
65 01 C8 = add eax, ecx
65 39 07 = cmp dword [gs:edi], eax
65 C7 C0 01 00 00 00 = mov eax, 0x1
2E 8B 07 = mov eax, dword [edi]
3E 01 07 = add dword [edi], eax
3E A2 44 33 22 11 = mov byte [0x11223344], al
2E 3E 8B 07 = mov eax, dword [edi]
66 66 66 66 66 66 66 66 66 66 66 66 66 8B 07 = mov ax, word [edi]
88 75 08 = mov byte [ebp+0x00000008], dh
A0 01 A0 04 08 = mov al, byte [0x0804a001]
A3 00 10 00 B0 = mov dword [0xb0001000], eax
66 C7 00 34 12 = mov word [eax], 0x1234
8D 4C 24 04 = lea ecx, [esp+0x00000004]
68 00 A0 04 08 = push 0x804a000
5B = pop ebx
91 = xchg eax, ecx
0F B6 01 = movzx eax, byte [ecx]
0F B6 CC = movzx ecx, ah
66 0F BE CA = movsx cx, dl
0F BF F7 = movsx esi, di
00 01 = add byte [ecx], al
66 1B 24 24 = sbb sp, word [esp]
66 83 F8 F0, 66 3D F0 FF = cmp ax, 0xfff0
83 E4 F0, 81 E4 F0 FF FF FF = and esp, 0xfffffff0
84 C0 = test al, al
F6 C4 40 = test ah, 0x40
FE 00 = inc byte [eax]
FF 4C 85 D8 = dec dword [ebp+eax*4+0xffffffd8]
F6 D3 = not bl
F7 64 24 08 = mul dword [esp+0x00000008]
F7 E9 = imul ecx
66 6B 03 F6 = imul ax, word [ebx], 0xfff6
C0 E0 FF = shl al, 0xff
66 D1 21 = shl word [ecx], 0x1
C1 C0 08 = rol eax, 0x8
66 D3 CD = ror bp, cl
F6 F3 = div bl
F6 FE = idiv dh
99 = cdq
FF D2 = call edx
E9 00 F0 FF FF = jmp 0x00000005
FF E0 = jmp eax
66 0F 1F C0 = nop ax
F4 = hlt
66 F3 A5, F3 66 A5 = rep movsw
66 AB = stosw";

/// The same for each condition.
const CONDITIONS: &str = "70 80, 0F 80 7C FF FF FF = jo 0x00000f82
0F 90 FC = seto ah
0F 40 01 = cmovo eax, dword [ecx]
71 80, 0F 81 7C FF FF FF = jno 0x00000f82
0F 91 FC = setno ah
0F 41 01 = cmovno eax, dword [ecx]
72 80, 0F 82 7C FF FF FF = jb 0x00000f82
0F 92 FC = setb ah
0F 42 01 = cmovb eax, dword [ecx]
73 80, 0F 83 7C FF FF FF = jae 0x00000f82
0F 93 FC = setae ah
0F 43 01 = cmovae eax, dword [ecx]
74 80, 0F 84 7C FF FF FF = je 0x00000f82
0F 94 FC = sete ah
0F 94 C1 = sete cl
0F 44 01 = cmove eax, dword [ecx]
0F 44 C1 = cmove eax, ecx
75 80, 0F 85 7C FF FF FF = jne 0x00000f82
0F 95 FC = setne ah
0F 45 01 = cmovne eax, dword [ecx]
76 80, 0F 86 7C FF FF FF = jbe 0x00000f82
0F 96 FC = setbe ah
0F 46 01 = cmovbe eax, dword [ecx]
77 80, 0F 87 7C FF FF FF = ja 0x00000f82
0F 97 FC = seta ah
0F 47 01 = cmova eax, dword [ecx]
78 80, 0F 88 7C FF FF FF = js 0x00000f82
0F 98 FC = sets ah
0F 48 01 = cmovs eax, dword [ecx]
79 80, 0F 89 7C FF FF FF = jns 0x00000f82
0F 99 FC = setns ah
0F 49 01 = cmovns eax, dword [ecx]
7A 80, 0F 8A 7C FF FF FF = jp 0x00000f82
0F 9A FC = setp ah
0F 4A 01 = cmovp eax, dword [ecx]
7B 80, 0F 8B 7C FF FF FF = jnp 0x00000f82
0F 9B FC = setnp ah
0F 4B 01 = cmovnp eax, dword [ecx]
7C 80, 0F 8C 7C FF FF FF = jl 0x00000f82
0F 9C FC = setl ah
0F 4C 01 = cmovl eax, dword [ecx]
7D 80, 0F 8D 7C FF FF FF = jge 0x00000f82
0F 9D FC = setge ah
0F 4D 01 = cmovge eax, dword [ecx]
7E 80, 0F 8E 7C FF FF FF = jle 0x00000f82
0F 9E FC = setle ah
0F 4E 01 = cmovle eax, dword [ecx]
7F 80, 0F 8F 7C FF FF FF = jg 0x00000f82
0F 9F FC = setg ah
0F 4F 01 = cmovg eax, dword [ecx]";

/// Bytes that are no instruction, and whether further bytes make them one.
const REFUSED: &str = " = short
0F, F3, F3 0F, A1 00, E8 00 00 00, 66, 8B, 8B 04, 8B 45, 8B 84 C8 44, 81 C0 00, 65 89, F3 66 = short
66 65 F3, 66 65 F3 0F, 66 66 66 66 66 66 66 66 66 66 66 66 66 66 = short
66 66 66 66 66 66 66 66 66 66 66 66 66 8B, 66 66 66 66 66 66 66 66 66 66 66 C7 = short
66 66 66 66 66 66 66 66 66 66 65 F3 = short
66 66 66 66 66 66 66 66 66 66 66 66 66 66 8B, 66 66 66 66 66 66 66 66 66 66 66 66 66 66 66 = unknown
66 66 66 66 66 66 66 66 66 66 66 66 66 66 8B 07, 66 66 66 66 66 66 66 66 66 66 66 66 C7 = unknown
66 66 66 66 66 66 66 66 66 66 66 65 F3, F3 90, 66 50, 67 8B 07, F0 01 07, 0F 05, 8D C0, 8F C8 = unknown
C6 08, 65 A3, 65 2E 8B 07, 3E 65, F3 65 A5, F3 65, F3 2E C3, F3 F3, 66 C3, 66 F3 C3, 82, F6 C8 = unknown
C0 F0, FE D0, FF D8, FF E8, FF F8, 0F 1F C8, 0F 1E FB, F3 0F 0B, F3 0F 1E FA, 66 58, 66 68 = unknown
66 6A, 66 8D, 66 8F, 66 98, 66 99, 66 C9, 66 C2, 66 E8, 66 E9, 66 EB, 66 70, 66 0F 80, 66 FF D0 = unknown
66 FF E0, 66 FF 30, 65 01 07, 65 87 07, 65 8F 00, 65 C6 00, 65 0F 90 00, 2E 01 07, 3E 2E 01 07 = unknown
2E A2, 65 A4, 65 AB, 06, 26, 36, 60, 64, 9C, A6, C4, C8, CD, D4, D8, E0, F1, F2, F5, 0F 00 = unknown
0F C7 = unknown";

/// What is said of some bytes, whole: their text, or why they were not decoded.
fn is_told(alloc: Global, bytes: &str, told: &str) -> Result<bool, AllocError> {
    let bytes = bytes_of(alloc, bytes)?;
    Ok(match decode(bytes.as_slice(), AT) {
        Err(NotDecoded::Short) => told == "short",
        Err(NotDecoded::Unknown) => told == "unknown",
        Ok(i) => {
            usize::from(i.len) == bytes.len() && print_instr(&i).as_slice() == told.as_bytes()
        }
    })
}

/// Whether a row tells what its bytes are.
fn holds(alloc: Global, row: &str) -> Result<bool, AllocError> {
    let Some((spellings, told)) = row.split_once(" = ") else {
        return Ok(false);
    };
    for bytes in spellings.split(',') {
        if !is_told(alloc, bytes, told)? {
            return Ok(false);
        }
    }
    Ok(true)
}

#[test]
fn instructions(rt: HostRuntime) -> Result<(), AllocError> {
    for table in [FORMS, CONDITIONS, REFUSED] {
        for row in table.lines() {
            assert!(rt; holds(rt.alloc(), row)?, "{row}");
        }
    }
    Ok(())
}

#[test]
fn target_wraps(rt: HostRuntime) {
    let wrapped = decode(&[0xEB, 0x10, 0xC3], 0xFFFF_FFF8);
    assert!(rt; wrapped.is_ok());
    if let Ok(i) = wrapped {
        assert!(rt; i.at == 0xFFFF_FFF8 && i.len == 2);
        assert_eq!(rt; print_instr(&i).as_slice(), b"jmp 0x0000000a".as_slice());
    }
}

#[test]
fn text_goes_out_in_one_call(rt: HostRuntime) -> Result<(), AllocError> {
    let mut sink = MemorySink::new(rt.alloc(), 100, [2].to_vec(rt.alloc())?)?;
    if let Ok(i) = decode(&[0x00, 0x01], AT) {
        assert!(rt; write_instr(&i, &mut sink) == Ok(()));
        assert!(rt; write_instr(&i, &mut sink) == Err(SinkFailed));
    }
    assert!(rt; sink.written() == b"add byte [ecx], al".as_slice());
    Ok(())
}
