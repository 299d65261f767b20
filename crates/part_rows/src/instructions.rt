//! Rows for each instruction and each addressing mode (PDP-11/40 Processor Handbook, chapters 3 and 4), and for faults.
//! What a row must come to was worked by hand from its left side and the table of instructions, which
//! docs/manual/instructions.md gives.
use crate::tell;
use pdp_step::Kind::{Bpt, Emt, Illegal, Iot, Odd, Segment};
use pdp_step::Outcome::{Call, Fault};
use pdp_step::{Outcome, Regs, step};
use std::process::Abort;
use v6_base::{Space, Whole};

// The octal numbers of a row, up to its name, and their count.
fn numbers(row: &str) -> ([u16; 24], usize) {
    let mut all = [0; 24];
    let mut count: usize = 0;
    let Some((columns, _)) = row.split_once(';') else {
        return (all, count);
    };
    for column in columns.split(' ') {
        if let Ok(number) = u16::from_str_radix(column, 8) {
            if let Some(place) = all.get_mut(count) {
                *place = number;
            }
            count = count.wrapping_add(1);
        }
    }
    (all, count)
}

// In octal: the word at 0 and the one after it; R0, R1, R5, SP, the word at 40 and the codes before; R0, R1, R5, SP,
// the word at 40, PC and the codes after.
static ROWS: &str = "\
010001 0      | 100000 0      0      177600 0      3  | 100000 100000 0      177600 0      2      11 ; MOV negative, C stays
010001 0      | 0      5      0      177600 0      12 | 0      0      0      177600 0      2      4  ; MOV zero
110001 0      | 1377   123456 0      177600 0      0  | 1377   177777 0      177600 0      2      10 ; MOVB extends the sign
110037 40     | 101    0      0      177600 123456 0  | 101    0      0      177600 123501 4      0  ; MOVB to memory leaves its neighbour
020001 0      | 100000 1      0      177600 0      0  | 100000 1      0      177600 0      2      2  ; CMP, V and no borrow
020001 0      | 1      2      0      177600 0      0  | 1      2      0      177600 0      2      11 ; CMP, borrow
020001 0      | 77777  177777 0      177600 0      0  | 77777  177777 0      177600 0      2      13 ; CMP, V and borrow
120001 0      | 1005   2005   0      177600 0      13 | 1005   2005   0      177600 0      2      4  ; CMPB of low bytes
120001 0      | 200    1      0      177600 0      0  | 200    1      0      177600 0      2      2  ; CMPB, V
030001 0      | 100001 100000 0      177600 0      3  | 100001 100000 0      177600 0      2      11 ; BIT
130001 0      | 400    777    0      177600 0      0  | 400    777    0      177600 0      2      4  ; BITB, zero
040001 0      | 70     177777 0      177600 0      1  | 70     177707 0      177600 0      2      11 ; BIC
140001 0      | 377    123456 0      177600 0      0  | 377    123400 0      177600 0      2      4  ; BICB leaves the high byte
050001 0      | 7      100070 0      177600 0      0  | 7      100077 0      177600 0      2      10 ; BIS
050001 0      | 1      2      0      177600 0      3  | 1      3      0      177600 0      2      1  ; BIS keeps C
150001 0      | 200    1001   0      177600 0      0  | 200    1201   0      177600 0      2      10 ; BISB leaves the high byte
060001 0      | 77777  1      0      177600 0      0  | 77777  100000 0      177600 0      2      12 ; ADD, overflow
060001 0      | 177777 1      0      177600 0      0  | 177777 0      0      177600 0      2      5  ; ADD, carry
060001 0      | 100000 100000 0      177600 0      0  | 100000 0      0      177600 0      2      7  ; ADD, both
160001 0      | 1      100000 0      177600 0      0  | 1      77777  0      177600 0      2      2  ; SUB, overflow
160001 0      | 2      1      0      177600 0      0  | 2      177777 0      177600 0      2      11 ; SUB, borrow
005001 0      | 0      7      0      177600 0      13 | 0      0      0      177600 0      2      4  ; CLR
105001 0      | 0      123456 0      177600 0      0  | 0      123400 0      177600 0      2      4  ; CLRB
005101 0      | 0      177777 0      177600 0      0  | 0      0      0      177600 0      2      5  ; COM
105101 0      | 0      1252   0      177600 0      0  | 0      1125   0      177600 0      2      1  ; COMB
005201 0      | 0      77777  0      177600 0      1  | 0      100000 0      177600 0      2      13 ; INC, overflow
105201 0      | 0      1377   0      177600 0      0  | 0      1000   0      177600 0      2      4  ; INCB round
005301 0      | 0      100000 0      177600 0      0  | 0      77777  0      177600 0      2      2  ; DEC, overflow
105301 0      | 0      200    0      177600 0      1  | 0      177    0      177600 0      2      3  ; DECB, overflow
005401 0      | 0      100000 0      177600 0      0  | 0      100000 0      177600 0      2      13 ; NEG of the least number
005401 0      | 0      0      0      177600 0      1  | 0      0      0      177600 0      2      4  ; NEG of zero
105401 0      | 0      1      0      177600 0      0  | 0      377    0      177600 0      2      11 ; NEGB
005501 0      | 0      77777  0      177600 0      1  | 0      100000 0      177600 0      2      12 ; ADC, overflow
005501 0      | 0      177777 0      177600 0      1  | 0      0      0      177600 0      2      5  ; ADC, carry
005501 0      | 0      177777 0      177600 0      0  | 0      177777 0      177600 0      2      10 ; ADC of all ones without C
105501 0      | 0      177    0      177600 0      0  | 0      177    0      177600 0      2      0  ; ADCB without carry
005600 0      | 100000 0      0      177600 0      1  | 77777  0      0      177600 0      2      2  ; SBC, overflow
005601 0      | 0      0      0      177600 0      1  | 0      177777 0      177600 0      2      11 ; SBC, borrow
005601 0      | 0      0      0      177600 0      0  | 0      0      0      177600 0      2      4  ; SBC of 0 without C
005601 0      | 0      100000 0      177600 0      0  | 0      100000 0      177600 0      2      10 ; SBC of the least without C
105601 0      | 0      200    0      177600 0      1  | 0      177    0      177600 0      2      2  ; SBCB, overflow
005701 0      | 0      100000 0      177600 0      3  | 0      100000 0      177600 0      2      10 ; TST
105701 0      | 0      400    0      177600 0      3  | 0      400    0      177600 0      2      4  ; TSTB
006001 0      | 0      2      0      177600 0      1  | 0      100001 0      177600 0      2      12 ; ROR, C in
006001 0      | 0      1      0      177600 0      0  | 0      0      0      177600 0      2      7  ; ROR, C out
106001 0      | 0      777    0      177600 0      1  | 0      777    0      177600 0      2      11 ; RORB
006101 0      | 0      100000 0      177600 0      1  | 0      1      0      177600 0      2      3  ; ROL, both
106101 0      | 0      100    0      177600 0      0  | 0      200    0      177600 0      2      12 ; ROLB
006201 0      | 0      100001 0      177600 0      0  | 0      140000 0      177600 0      2      11 ; ASR keeps the sign
106201 0      | 0      201    0      177600 0      0  | 0      300    0      177600 0      2      11 ; ASRB
006301 0      | 0      40000  0      177600 0      0  | 0      100000 0      177600 0      2      12 ; ASL, overflow
106301 0      | 0      300    0      177600 0      0  | 0      200    0      177600 0      2      11 ; ASLB, carry
000301 0      | 0      100001 0      177600 0      3  | 0      600    0      177600 0      2      10 ; SWAB
000301 0      | 0      100377 0      177600 0      0  | 0      177600 0      177600 0      2      10 ; SWAB, low byte negative
000301 0      | 0      377    0      177600 0      0  | 0      177400 0      177600 0      2      4  ; SWAB, Z by the low byte
006701 0      | 0      7      0      177600 0      13 | 0      177777 0      177600 0      2      11 ; SXT of a negative
006701 0      | 0      7      0      177600 0      3  | 0      0      0      177600 0      2      5  ; SXT of another
070001 0      | 177776 3      0      177600 0      0  | 177777 177772 0      177600 0      2      10 ; MUL, negative
070001 0      | 40000  4      0      177600 0      0  | 1      0      0      177600 0      2      1  ; MUL, too large for a word
070100 0      | 400    400    0      177600 0      0  | 400    0      0      177600 0      2      1  ; MUL, odd register
070001 0      | 100000 1      0      177600 0      0  | 177777 100000 0      177600 0      2      10 ; MUL, least product of a word
070001 0      | 40000  2      0      177600 0      0  | 0      100000 0      177600 0      2      1  ; MUL, one past the greatest
070001 0      | 5      0      0      177600 0      13 | 0      0      0      177600 0      2      4  ; MUL, zero
070627 2      | 0      0      0      20     0      0  | 0      0      0      0      0      40     0  ; MUL into SP and PC
070020 0      | 40     0      0      177600 3      0  | 0      146    0      177600 3      2      0  ; MUL reads R after the source
071027 2      | 0      7      0      177600 0      0  | 3      1      0      177600 0      4      0  ; DIV, cut toward 0
071027 2      | 177777 177771 0      177600 0      0  | 177775 177777 0      177600 0      4      10 ; DIV of a negative number
071027 0      | 1      7      0      177600 0      14 | 1      7      0      177600 0      4      3  ; DIV by 0
071027 1      | 0      100000 0      177600 0      0  | 0      100000 0      177600 0      4      2  ; DIV, no room
071027 1      | 177777 100000 0      177600 0      0  | 100000 0      0      177600 0      4      10 ; DIV, the least quotient
071127 3      | 0      2      0      177600 0      0  | 0      2      0      177600 0      4      2  ; DIV, odd register
071027 2      | 0      1      0      177600 0      13 | 0      1      0      177600 0      4      4  ; DIV, quotient 0
071027 1      | 177777 0      0      177600 0      0  | 177777 0      0      177600 0      4      2  ; DIV, negative without room
072001 0      | 40000  1      0      177600 0      0  | 100000 1      0      177600 0      2      12 ; ASH, sign changes
072001 0      | 100003 76     0      177600 0      0  | 160000 76     0      177600 0      2      11 ; ASH, to the right
072001 0      | 60000  3      0      177600 0      0  | 0      3      0      177600 0      2      7  ; ASH, sign changes on the way
072001 0      | 5      100    0      177600 0      3  | 5      100    0      177600 0      2      0  ; ASH by 0 clears V and C
072001 0      | 100000 40     0      177600 0      0  | 177777 40     0      177600 0      2      11 ; ASH by -32
073027 20     | 0      100001 0      177600 0      0  | 100001 0      0      177600 0      4      12 ; ASHC, to the left
073027 77     | 1      0      0      177600 0      0  | 0      100000 0      177600 0      4      0  ; ASHC, to the right
073127 1      | 0      100000 0      177600 0      0  | 0      0      0      177600 0      4      3  ; ASHC, odd register
074001 0      | 52525  177777 0      177600 0      1  | 52525  125252 0      177600 0      2      11 ; XOR
074020 0      | 40     0      0      177600 5      0  | 42     0      0      177600 45     2      0  ; XOR reads R before the address is formed
077001 0      | 2      0      0      177600 0      17 | 1      0      0      177600 0      0      17 ; SOB goes on
077001 0      | 1      0      0      177600 0      17 | 0      0      0      177600 0      2      17 ; SOB ends
077040 0      | 2      0      0      177600 0      0  | 1      0      0      177600 0      177702 0  ; SOB by 32 words
077001 0      | 0      0      0      177600 0      0  | 177777 0      0      177600 0      0      0  ; SOB of 0 goes round
000403 0      | 0      0      0      177600 0      0  | 0      0      0      177600 0      10     0  ; BR, taken
001003 0      | 0      0      0      177600 0      13 | 0      0      0      177600 0      10     13 ; BNE, taken
001003 0      | 0      0      0      177600 0      4  | 0      0      0      177600 0      2      4  ; BNE, not taken
001403 0      | 0      0      0      177600 0      4  | 0      0      0      177600 0      10     4  ; BEQ, taken
001403 0      | 0      0      0      177600 0      13 | 0      0      0      177600 0      2      13 ; BEQ, not taken
002003 0      | 0      0      0      177600 0      12 | 0      0      0      177600 0      10     12 ; BGE, taken
002003 0      | 0      0      0      177600 0      10 | 0      0      0      177600 0      2      10 ; BGE, not taken
002003 0      | 0      0      0      177600 0      0  | 0      0      0      177600 0      10     0  ; BGE, neither
002003 0      | 0      0      0      177600 0      2  | 0      0      0      177600 0      2      2  ; BGE, V alone
002403 0      | 0      0      0      177600 0      2  | 0      0      0      177600 0      10     2  ; BLT, taken
002403 0      | 0      0      0      177600 0      12 | 0      0      0      177600 0      2      12 ; BLT, not taken
003003 0      | 0      0      0      177600 0      13 | 0      0      0      177600 0      10     13 ; BGT, taken
003003 0      | 0      0      0      177600 0      16 | 0      0      0      177600 0      2      16 ; BGT, not taken
003003 0      | 0      0      0      177600 0      10 | 0      0      0      177600 0      2      10 ; BGT, N alone
003403 0      | 0      0      0      177600 0      10 | 0      0      0      177600 0      10     10 ; BLE, taken
003403 0      | 0      0      0      177600 0      1  | 0      0      0      177600 0      2      1  ; BLE, not taken
000777 0      | 0      0      0      177600 0      0  | 0      0      0      177600 0      0      0  ; BR back
000600 0      | 0      0      0      177600 0      0  | 0      0      0      177600 0      177402 0  ; BR by -128
100003 0      | 0      0      0      177600 0      7  | 0      0      0      177600 0      10     7  ; BPL, taken
100003 0      | 0      0      0      177600 0      10 | 0      0      0      177600 0      2      10 ; BPL, not taken
100377 0      | 0      0      0      177600 0      0  | 0      0      0      177600 0      0      0  ; BPL by -1
100403 0      | 0      0      0      177600 0      10 | 0      0      0      177600 0      10     10 ; BMI, taken
100403 0      | 0      0      0      177600 0      7  | 0      0      0      177600 0      2      7  ; BMI, not taken
101003 0      | 0      0      0      177600 0      12 | 0      0      0      177600 0      10     12 ; BHI, taken
101003 0      | 0      0      0      177600 0      4  | 0      0      0      177600 0      2      4  ; BHI, not taken
101403 0      | 0      0      0      177600 0      1  | 0      0      0      177600 0      10     1  ; BLOS, taken
101403 0      | 0      0      0      177600 0      12 | 0      0      0      177600 0      2      12 ; BLOS, not taken
102003 0      | 0      0      0      177600 0      15 | 0      0      0      177600 0      10     15 ; BVC, taken
102003 0      | 0      0      0      177600 0      2  | 0      0      0      177600 0      2      2  ; BVC, not taken
102403 0      | 0      0      0      177600 0      2  | 0      0      0      177600 0      10     2  ; BVS, taken
102403 0      | 0      0      0      177600 0      15 | 0      0      0      177600 0      2      15 ; BVS, not taken
103003 0      | 0      0      0      177600 0      16 | 0      0      0      177600 0      10     16 ; BCC, taken
103003 0      | 0      0      0      177600 0      1  | 0      0      0      177600 0      2      1  ; BCC, not taken
103403 0      | 0      0      0      177600 0      1  | 0      0      0      177600 0      10     1  ; BCS, taken
103403 0      | 0      0      0      177600 0      16 | 0      0      0      177600 0      2      16 ; BCS, not taken
002403 0      | 0      0      0      177600 0      10 | 0      0      0      177600 0      10     10 ; BLT by N and V
003403 0      | 0      0      0      177600 0      4  | 0      0      0      177600 0      10     4  ; BLE by Z alone
003403 0      | 0      0      0      177600 0      2  | 0      0      0      177600 0      10     2  ; BLE, V alone
101403 0      | 0      0      0      177600 0      4  | 0      0      0      177600 0      10     4  ; BLOS by Z alone
101003 0      | 0      0      0      177600 0      1  | 0      0      0      177600 0      2      1  ; BHI, not by C
000160 30     | 10     0      0      177600 0      0  | 10     0      0      177600 0      40     0  ; JMP X(R)
004537 30     | 0      0      123456 42     0      0  | 0      0      4      40     123456 30     0  ; JSR pushes the link
004767 10     | 0      0      0      42     0      0  | 0      0      0      40     4      14     0  ; JSR PC
004637 30     | 0      0      0      42     123456 0  | 0      0      0      4      42     30     0  ; JSR SP pushes SP as it was
000205 0      | 0      0      1000   40     123456 0  | 0      0      123456 42     123456 1000   0  ; RTS
000207 0      | 0      0      0      40     1000   0  | 0      0      0      42     1000   1000   0  ; RTS PC
000206 0      | 0      0      0      40     1000   0  | 0      0      0      1000   1000   40     0  ; RTS SP
006417 0      | 0      0      1000   177600 123456 0  | 0      0      123456 42     123456 1000   0  ; MARK
000002 0      | 0      0      0      36     177765 0  | 0      0      0      42     177765 0      5  ; RTI
000006 0      | 0      0      0      36     177765 0  | 0      0      0      42     177765 0      5  ; RTT
000277 0      | 0      0      0      177600 0      0  | 0      0      0      177600 0      2      17 ; SCC
000242 0      | 0      0      0      177600 0      17 | 0      0      0      177600 0      2      15 ; CLV
000271 0      | 0      0      0      177600 0      2  | 0      0      0      177600 0      2      13 ; SEN, SEC
000240 0      | 0      0      0      177600 0      5  | 0      0      0      177600 0      2      5  ; no codes named
000001 0      | 0      0      0      177600 0      11 | 0      0      0      177600 0      2      11 ; WAIT
000005 0      | 0      0      0      177600 0      0  | 0      0      0      177600 0      2      0  ; RESET
011001 0      | 40     0      0      177600 5      0  | 40     5      0      177600 5      2      0  ; (R)
012001 0      | 40     0      0      177600 5      0  | 42     5      0      177600 5      2      0  ; (R)+
013001 40     | 2      0      0      177600 5      0  | 4      5      0      177600 5      2      0  ; @(R)+
014001 0      | 42     0      0      177600 5      0  | 40     5      0      177600 5      2      0  ; -(R)
015001 40     | 4      0      0      177600 5      0  | 2      5      0      177600 5      2      0  ; @-(R)
016001 20     | 20     0      0      177600 5      0  | 20     5      0      177600 5      4      0  ; X(R)
017001 40     | 177742 0      0      177600 5      0  | 177742 5      0      177600 5      4      0  ; @X(R)
012701 123456 | 0      0      0      177600 0      0  | 0      123456 0      177600 0      4      10 ; #n
013701 40     | 0      0      0      177600 5      0  | 0      5      0      177600 5      4      0  ; @#a
016701 34     | 0      0      0      177600 5      0  | 0      5      0      177600 5      4      0  ; relative
112001 0      | 41     0      0      177600 2400   0  | 42     5      0      177600 2400   2      0  ; byte (R)+ steps by 1
114001 0      | 42     0      0      177600 2400   0  | 41     5      0      177600 2400   2      0  ; byte -(R) steps by 1
112601 0      | 0      0      0      40     2405   0  | 0      5      0      42     2405   2      0  ; byte (SP)+ steps by 2
114601 0      | 0      0      0      42     2405   0  | 0      5      0      40     2405   2      0  ; byte -(SP) steps by 2
113001 40     | 2      0      0      177600 7      0  | 4      7      0      177600 7      2      0  ; byte @(R)+ steps by 2
060137 40     | 0      2      0      177600 3      0  | 0      2      0      177600 5      4      0  ; into memory
010020 0      | 40     0      0      177600 0      0  | 42     0      0      177600 40     2      0  ; the source is read before the destination is formed
016001 177777 | 41     0      0      177600 5      0  | 41     5      0      177600 5      4      0  ; addresses go round
112700 5      | 0      0      0      177600 0      0  | 5      0      0      177600 0      4      0  ; MOVB immediate: PC steps by 2
062000 0      | 40     0      0      177600 5      0  | 47     0      0      177600 5      2      0  ; ADD (R)+,R
022000 0      | 40     0      0      177600 42     0  | 42     0      0      177600 42     2      4  ; CMP (R)+,R: the source is formed first
014626 0      | 0      0      0      42     5      17 | 0      0      0      42     5      2      1  ; MOV -(SP),(SP)+ puts a word where it was
014041 0      | 2      42     0      177600 0      0  | 0      40     0      177600 14041  2      0  ; MOV -(R),-(R)
014040 0      | 42     0      0      177600 5      0  | 36     0      0      177600 5      2      0  ; MOV -(R),-(R) of one register, which steps twice
010701 0      | 0      5      0      177600 0      3  | 0      2      0      177600 0      2      1  ; MOV PC,R: the address after the word
010107 0      | 0      1000   0      177600 0      2  | 0      1000   0      177600 0      1000   0  ; MOV R,PC
020701 0      | 0      2      0      177600 0      13 | 0      2      0      177600 0      2      4  ; CMP PC,R, equal
020701 0      | 0      3      0      177600 0      0  | 0      3      0      177600 0      2      11 ; CMP PC,R, borrow
030701 0      | 0      3      0      177600 0      3  | 0      3      0      177600 0      2      1  ; BIT PC,R
040701 0      | 0      177777 0      177600 0      1  | 0      177775 0      177600 0      2      11 ; BIC PC,R
050701 0      | 0      4      0      177600 0      17 | 0      6      0      177600 0      2      1  ; BIS PC,R
060701 0      | 0      177776 0      177600 0      0  | 0      0      0      177600 0      2      5  ; ADD PC,R
060107 0      | 0      6      0      177600 0      17 | 0      6      0      177600 0      10     0  ; ADD R,PC: a table of jumps
160701 0      | 0      1      0      177600 0      0  | 0      177777 0      177600 0      2      11 ; SUB PC,R
005707 0      | 0      0      0      177600 0      17 | 0      0      0      177600 0      2      0  ; TST PC
110701 0      | 0      177777 0      177600 0      0  | 0      2      0      177600 0      2      0  ; MOVB PC,R";

// After the examples of the addressing modes (handbook, chapter 3) and of the instructions (chapter 4), written down
// from memory, and two rows more in their form. In octal: the words at 1020; R0 to R5; two words of memory, each after
// its address; the codes; then R0 to R5, the two words, PC and the codes after.
static EXAMPLES: &str = "\
060204 0    0  | 0     0     2      0     4     0     | 2000   0      2002  0      | 17 | 0      0     2      0     6     0     | 0      0      | 1022 0  ; ADD R2,R4
105104 0    0  | 0     0     0      0     22222 0     | 2000   0      2002  0      | 0  | 0      0     0      0     22155 0     | 0      0      | 1022 1  ; COMB R4
005025 0    0  | 0     0     0      0     0     30000 | 30000  111116 2002  0      | 13 | 0      0     0      0     0     30002 | 0      0      | 1022 4  ; CLR (R5)+
105025 0    0  | 0     0     0      0     0     30000 | 30000  111116 2002  0      | 13 | 0      0     0      0     0     30001 | 111000 0      | 1022 4  ; CLRB (R5)+
062204 0    0  | 0     0     100002 0     10000 0     | 100002 10000  2002  0      | 0  | 0      0     100004 0     20000 0     | 10000  0      | 1022 0  ; ADD (R2)+,R4
005240 0    0  | 17776 0     0      0     0     0     | 17774  0      2002  0      | 1  | 17774  0     0      0     0     0     | 1      0      | 1022 1  ; INC -(R0)
105240 0    0  | 17776 0     0      0     0     0     | 17774  0      2002  0      | 0  | 17775  0     0      0     0     0     | 400    0      | 1022 0  ; INCB -(R0)
064300 0    0  | 20    0     0      77776 0     0     | 77774  50     2002  0      | 0  | 70     0     0      77774 0     0     | 50     0      | 1022 0  ; ADD -(R3),R0
005064 200  0  | 0     0     0      0     1000  0     | 1200   177777 2002  0      | 0  | 0      0     0      0     1000  0     | 0      0      | 1024 4  ; CLR 200(R4)
066265 30   20 | 0     0     1100   0     0     2000  | 1130   1      2020  1      | 0  | 0      0     1100   0     0     2000  | 1      2      | 1026 0  ; ADD 30(R2),20(R5)
005015 0    0  | 0     0     0      0     0     1700  | 1700   100    2002  0      | 0  | 0      0     0      0     0     1700  | 0      0      | 1022 4  ; CLR @R5
005232 0    0  | 0     0     10300  0     0     0     | 10300  1010   1010  25     | 0  | 0      0     10302  0     0     0     | 1010   26     | 1022 0  ; INC @(R2)+
005150 0    0  | 10776 0     0      0     0     0     | 10774  10100  10100 12345  | 0  | 10774  0     0      0     0     0     | 10100  165432 | 1022 11 ; COM @-(R0)
067201 1000 0  | 0     1234  100    0     0     0     | 1100   1050   1050  2      | 0  | 0      1236  100    0     0     0     | 1050   2      | 1024 0  ; ADD @1000(R2),R1
062700 10   0  | 20    0     0      0     0     0     | 2000   0      2002  0      | 0  | 30     0     0      0     0     0     | 0      0      | 1024 0  ; ADD #10,R0
005037 1100 0  | 0     0     0      0     0     0     | 1100   177777 2002  0      | 0  | 0      0     0      0     0     0     | 0      0      | 1024 4  ; CLR @#1100
063703 2000 0  | 0     0     0      500   0     0     | 2000   300    2002  0      | 0  | 0      0     0      1000  0     0     | 300    0      | 1024 0  ; ADD @#2000,R3
005267 54   0  | 0     0     0      0     0     0     | 1100   0      2002  0      | 0  | 0      0     0      0     0     0     | 1      0      | 1024 0  ; INC A
005077 20   0  | 0     0     0      0     0     0     | 1044   10100  10100 100001 | 0  | 0      0     0      0     0     0     | 10100  0      | 1024 4  ; CLR @A
005001 0    0  | 0     177777 0     0     0     0     | 2000   0      2002  0      | 17 | 0      0     0      0     0     0     | 0      0      | 1022 4  ; CLR R1
005100 0    0  | 13333 0     0      0     0     0     | 2000   0      2002  0      | 6  | 164444 0     0      0     0     0     | 0      0      | 1022 11 ; COM R0
005203 0    0  | 0     0     0      333   0     0     | 2000   0      2002  0      | 0  | 0      0     0      334   0     0     | 0      0      | 1022 0  ; INC R3
005305 0    0  | 0     0     0      0     0     1     | 2000   0      2002  0      | 10 | 0      0     0      0     0     0     | 0      0      | 1022 4  ; DEC R5
005400 0    0  | 10    0     0      0     0     0     | 2000   0      2002  0      | 0  | 177770 0     0      0     0     0     | 0      0      | 1022 11 ; NEG R0
005701 0    0  | 0     12340 0      0     0     0     | 2000   0      2002  0      | 3  | 0      12340 0      0     0     0     | 0      0      | 1022 0  ; TST R1
000301 0    0  | 0     77777 0      0     0     0     | 2000   0      2002  0      | 17 | 0      177577 0     0     0     0     | 0      0      | 1022 0  ; SWAB R1
006767 54   0  | 0     0     0      0     0     0     | 1100   12345  2002  0      | 10 | 0      0     0      0     0     0     | 177777 0      | 1024 10 ; SXT A
160102 0    0  | 0     11111 12345  0     0     0     | 2000   0      2002  0      | 17 | 0      11111 1234   0     0     0     | 0      0      | 1022 0  ; SUB R1,R2
032703 30   0  | 0     0     0      30    0     0     | 2000   0      2002  0      | 17 | 0      0     0      30    0     0     | 0      0      | 1024 1  ; BIT #30,R3
040304 0    0  | 0     0     0      1234  1111  0     | 2000   0      2002  0      | 17 | 0      0     0      1234  101   0     | 0      0      | 1022 1  ; BIC R3,R4
050001 0    0  | 1234  1111  0      0     0     0     | 2000   0      2002  0      | 0  | 1234   1335  0      0     0     0     | 0      0      | 1022 0  ; BIS R0,R1
074002 0    0  | 1234  0     1111   0     0     0     | 2000   0      2002  0      | 17 | 1234   0     325    0     0     0     | 0      0      | 1022 1  ; XOR R0,R2
070127 10   0  | 0     400   0      0     0     0     | 2000   0      2002  0      | 16 | 0      4000  0      0     0     0     | 0      0      | 1024 0  ; MUL #10,R1
070227 10   0  | 0     0     400    0     0     0     | 2000   0      2002  0      | 16 | 0      0     0      4000  0     0     | 0      0      | 1024 0  ; MUL #10,R2
071027 2    0  | 0     20001 0      0     0     0     | 2000   0      2002  0      | 17 | 10000  1     0      0     0     0     | 0      0      | 1024 0  ; DIV #2,R0
071002 0    0  | 0     7     177776 0     0     0     | 2000   0      2002  0      | 17 | 177775 1     177776 0     0     0     | 0      0      | 1022 10 ; DIV R2,R0
072300 0    0  | 3     0     0      1234  0     0     | 2000   0      2002  0      | 0  | 3      0     0      12340 0     0     | 0      0      | 1022 0  ; ASH R0,R3";

// What is left of one instruction that is done: the registers and the codes.
fn done(memory: &mut Whole, r: [u16; 8], codes: u16) -> Option<([u16; 8], u16)> {
    if codes > 15 {
        return None;
    }
    let mut regs = Regs { r, cc: codes as u8 };
    match step(&mut regs, memory) {
        Outcome::Next => Some((regs.r, regs.cc as u16)),
        _ => None,
    }
}

// Whether each word could be put at its address.
fn put(memory: &mut Whole, words: &[(u16, u16)]) -> bool {
    for (at, word) in words {
        if memory.store_word(*at, *word) != Ok(()) {
            return false;
        }
    }
    true
}

// A row of 15 numbers, and one of 24: the columns stand above each table.
fn row_holds(memory: &mut Whole, n: &[u16; 24]) -> bool {
    let r = [n[2], n[3], 0, 0, 0, n[4], n[5], 0];
    let after = [n[8], n[9], 0, 0, 0, n[10], n[11], n[13]];
    put(memory, &[(0, n[0]), (2, n[1]), (0o40, n[6])])
        && done(memory, r, n[7]) == Some((after, n[14]))
        && memory.load_word(0o40) == Ok(n[12])
}

fn example_holds(memory: &mut Whole, n: &[u16; 24]) -> bool {
    let words = [
        (0o1020, n[0]),
        (0o1022, n[1]),
        (0o1024, n[2]),
        (n[9], n[10]),
        (n[11], n[12]),
    ];
    let r = [n[3], n[4], n[5], n[6], n[7], n[8], 0o177600, 0o1020];
    let after = [n[14], n[15], n[16], n[17], n[18], n[19], 0o177600, n[22]];
    put(memory, &words)
        && done(memory, r, n[13]) == Some((after, n[23]))
        && memory.load_word(n[9]) == Ok(n[20])
        && memory.load_word(n[11]) == Ok(n[21])
}

fn holds(memory: &mut Whole, row: &str) -> bool {
    match numbers(row) {
        (n, 15) => row_holds(memory, &n),
        (n, 24) => example_holds(memory, &n),
        _ => false,
    }
}

fn judge(rt: &impl Abort, memory: &mut Whole, rows: &str) {
    for row in rows.lines() {
        assert!(rt; holds(memory, row), "{row}");
    }
}

#[test]
fn instructions_do_what_their_pages_say(rt: HostRuntime) {
    let mut memory = Whole::new(rt.alloc()).expect(&rt, "memory");
    memory.set_sizes(0, 1, 20);
    judge(&rt, &mut memory, ROWS);
}

#[test]
fn examples_of_the_handbook_come_out(rt: HostRuntime) {
    let mut memory = Whole::new(rt.alloc()).expect(&rt, "memory");
    memory.set_sizes(0, 520, 20);
    judge(&rt, &mut memory, EXAMPLES);
}

// The word at 0 and the one after it, R0 and SP; what comes of it, and how far PC moves.
static FAULTS: [([u16; 4], Outcome, u16); 28] = [
    // MOV @#41,R0
    ([0o013700, 0o41, 0, 0], Fault(Odd), 0),
    // MOV @(R0)+,R0 through an odd address
    ([0o013000, 0, 0o41, 0], Fault(Odd), 0),
    // MOV R0,@#100, after the data
    (
        [0o010037, 0o100, 0, 0o177600],
        Fault(Segment { sp: 0o177600 }),
        0,
    ),
    // MOV (R0)+,-(SP), below the stack
    ([0o012046, 0, 0o40, 64256], Fault(Segment { sp: 64254 }), 0),
    // MOV (SP)+,R0
    ([0o012600, 0, 0, 64254], Fault(Segment { sp: 64256 }), 0),
    // MOV @-(SP),R0
    ([0o015600, 0, 0, 64256], Fault(Segment { sp: 64254 }), 0),
    // JSR PC,@#40
    ([0o004737, 0o40, 0, 64256], Fault(Segment { sp: 64254 }), 0),
    // JSR SP,@#40
    ([0o004637, 0o40, 0, 64256], Fault(Segment { sp: 64254 }), 0),
    // RTS PC
    ([0o000207, 0, 0, 64254], Fault(Segment { sp: 64256 }), 0),
    // RTI at an odd address
    ([0o000002, 0, 0, 0o41], Fault(Odd), 0),
    // RTI, whose second word isn't there
    ([0o000002, 0, 0, 0o76], Fault(Segment { sp: 0o102 }), 0),
    // MARK 40
    ([0o006440, 0, 0, 0], Fault(Segment { sp: 68 }), 0),
    ([0o000000, 0, 0, 0], Fault(Illegal(0)), 2),
    ([0o000007, 0, 0, 0], Fault(Illegal(0o000007)), 2),
    ([0o000107, 0, 0, 0], Fault(Illegal(0o000107)), 2),
    ([0o000210, 0, 0, 0], Fault(Illegal(0o000210)), 2),
    ([0o004005, 0, 0, 0], Fault(Illegal(0o004005)), 2),
    ([0o006500, 0, 0, 0], Fault(Illegal(0o006500)), 2),
    ([0o007000, 0, 0, 0], Fault(Illegal(0o007000)), 2),
    ([0o075000, 0, 0, 0], Fault(Illegal(0o075000)), 2),
    ([0o106400, 0, 0, 0], Fault(Illegal(0o106400)), 2),
    ([0o170011, 0, 0, 0], Fault(Illegal(0o170011)), 2),
    ([0o000003, 0, 0, 0], Fault(Bpt), 2),
    ([0o000004, 0, 0, 0], Fault(Iot), 2),
    ([0o104377, 0, 0, 0], Fault(Emt), 2),
    ([0o104400, 0, 0, 0], Call(0), 2),
    ([0o104521, 0, 0, 0], Call(0o21), 2),
    ([0o104777, 0, 0, 0], Call(0o77), 2),
];

// Whether an instruction isn't done, so that nothing is changed but PC.
fn stops(memory: &mut Whole, r: [u16; 8], outcome: Outcome, pc: u16) -> bool {
    let mut regs = Regs { r, cc: 5 };
    let after = [r[0], r[1], r[2], r[3], r[4], r[5], r[6], pc];
    step(&mut regs, memory) == outcome && regs.r == after && regs.cc == 5
}

fn fault_holds(memory: &mut Whole, before: [u16; 4], outcome: Outcome, passed: u16) -> bool {
    let [word, next, r0, sp] = before;
    put(memory, &[(0, word), (2, next), (0o40, 0o123456)])
        && stops(memory, [r0, 1, 2, 3, 4, 5, sp, 0], outcome, passed)
        && memory.load_word(0o40) == Ok(0o123456)
}

fn judge_faults(rt: &impl Abort, memory: &mut Whole, rows: &[([u16; 4], Outcome, u16)]) {
    for (k, row) in rows.iter().enumerate() {
        tell::plain_row(rt, k, fault_holds(memory, row.0, row.1, row.2));
    }
}

#[test]
fn faults_leave_what_was(rt: HostRuntime) {
    let mut memory = Whole::new(rt.alloc()).expect(&rt, "memory");
    memory.set_sizes(0, 1, 20);
    judge_faults(&rt, &mut memory, &FAULTS);
}

// MOV R0,@#40, where the text ends at 100 and the data begin at 20000.
fn text_stays(memory: &mut Whole) -> bool {
    let r = [7, 1, 2, 3, 4, 5, 0o177600, 0o20000];
    put(memory, &[(0o20000, 0o010037), (0o20002, 0o40)])
        && stops(memory, r, Fault(Segment { sp: 0o177600 }), 0o20000)
        && memory.load_word(0o40) == Ok(0)
}

#[test]
fn a_text_is_not_written(rt: HostRuntime) {
    let mut memory = Whole::new(rt.alloc()).expect(&rt, "memory");
    memory.set_sizes(1, 1, 20);
    tell::plain(&rt, text_stays(&mut memory));
}

// PC behind the data, and at an odd address.
fn leaves(memory: &mut Whole) -> bool {
    let behind = [0, 0, 0, 0, 0, 0, 7, 64];
    let odd = [0, 0, 0, 0, 0, 0, 7, 3];
    stops(memory, behind, Fault(Segment { sp: 7 }), 64) && stops(memory, odd, Fault(Odd), 3)
}

#[test]
fn a_program_that_leaves_its_memory_stops(rt: HostRuntime) {
    let mut memory = Whole::new(rt.alloc()).expect(&rt, "memory");
    memory.set_sizes(0, 1, 0);
    tell::plain(&rt, leaves(&mut memory));
}
