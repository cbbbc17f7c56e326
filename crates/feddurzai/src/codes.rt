//! The codes of common instructions. capi/codes.py writes this file from the rows of the table; `rows::code_of` finds the others.
//!
//! In the names RM is a register or memory, REL an offset and IMM an immediate, and a number is a width in bits. JMP, CALL, Jcc, RET, PUSH, POP and LEAVE are
//! of 64-bit code, unless `_O32`, `R32` or `RM32` marks them as 32-bit code.

use x86_values::Code;

/// JMP: `o64 EB cb`.
pub const JMP_REL8: Code = Code(631);

/// JMP: `o64 E9 cd`.
pub const JMP_REL32: Code = Code(626);

/// JMP: `o32 EB cb`.
pub const JMP_REL8_O32: Code = Code(630);

/// JMP: `o32 E9 cd`.
pub const JMP_REL32_O32: Code = Code(625);

/// JMP: `o64 FF /4`.
pub const JMP_RM64: Code = Code(691);

/// JMP: `o32 FF /4`.
pub const JMP_RM32: Code = Code(690);

/// CALL: `o64 E8 cd`.
pub const CALL_REL32: Code = Code(623);

/// CALL: `o32 E8 cd`.
pub const CALL_REL32_O32: Code = Code(622);

/// CALL: `o64 FF /2`.
pub const CALL_RM64: Code = Code(685);

/// CALL: `o32 FF /2`.
pub const CALL_RM32: Code = Code(684);

/// JO: `o64 70 cb`.
pub const JO_REL8: Code = Code(154);

/// JO: `o64 0F 80 cd`.
pub const JO_REL32: Code = Code(994);

/// JO: `o32 70 cb`.
pub const JO_REL8_O32: Code = Code(153);

/// JO: `o32 0F 80 cd`.
pub const JO_REL32_O32: Code = Code(993);

/// JNO: `o64 71 cb`.
pub const JNO_REL8: Code = Code(157);

/// JNO: `o64 0F 81 cd`.
pub const JNO_REL32: Code = Code(997);

/// JNO: `o32 71 cb`.
pub const JNO_REL8_O32: Code = Code(156);

/// JNO: `o32 0F 81 cd`.
pub const JNO_REL32_O32: Code = Code(996);

/// JB: `o64 72 cb`.
pub const JB_REL8: Code = Code(160);

/// JB: `o64 0F 82 cd`.
pub const JB_REL32: Code = Code(1000);

/// JB: `o32 72 cb`.
pub const JB_REL8_O32: Code = Code(159);

/// JB: `o32 0F 82 cd`.
pub const JB_REL32_O32: Code = Code(999);

/// JAE: `o64 73 cb`.
pub const JAE_REL8: Code = Code(163);

/// JAE: `o64 0F 83 cd`.
pub const JAE_REL32: Code = Code(1003);

/// JAE: `o32 73 cb`.
pub const JAE_REL8_O32: Code = Code(162);

/// JAE: `o32 0F 83 cd`.
pub const JAE_REL32_O32: Code = Code(1002);

/// JE: `o64 74 cb`.
pub const JE_REL8: Code = Code(166);

/// JE: `o64 0F 84 cd`.
pub const JE_REL32: Code = Code(1006);

/// JE: `o32 74 cb`.
pub const JE_REL8_O32: Code = Code(165);

/// JE: `o32 0F 84 cd`.
pub const JE_REL32_O32: Code = Code(1005);

/// JNE: `o64 75 cb`.
pub const JNE_REL8: Code = Code(169);

/// JNE: `o64 0F 85 cd`.
pub const JNE_REL32: Code = Code(1009);

/// JNE: `o32 75 cb`.
pub const JNE_REL8_O32: Code = Code(168);

/// JNE: `o32 0F 85 cd`.
pub const JNE_REL32_O32: Code = Code(1008);

/// JBE: `o64 76 cb`.
pub const JBE_REL8: Code = Code(172);

/// JBE: `o64 0F 86 cd`.
pub const JBE_REL32: Code = Code(1012);

/// JBE: `o32 76 cb`.
pub const JBE_REL8_O32: Code = Code(171);

/// JBE: `o32 0F 86 cd`.
pub const JBE_REL32_O32: Code = Code(1011);

/// JA: `o64 77 cb`.
pub const JA_REL8: Code = Code(175);

/// JA: `o64 0F 87 cd`.
pub const JA_REL32: Code = Code(1015);

/// JA: `o32 77 cb`.
pub const JA_REL8_O32: Code = Code(174);

/// JA: `o32 0F 87 cd`.
pub const JA_REL32_O32: Code = Code(1014);

/// JS: `o64 78 cb`.
pub const JS_REL8: Code = Code(178);

/// JS: `o64 0F 88 cd`.
pub const JS_REL32: Code = Code(1018);

/// JS: `o32 78 cb`.
pub const JS_REL8_O32: Code = Code(177);

/// JS: `o32 0F 88 cd`.
pub const JS_REL32_O32: Code = Code(1017);

/// JNS: `o64 79 cb`.
pub const JNS_REL8: Code = Code(181);

/// JNS: `o64 0F 89 cd`.
pub const JNS_REL32: Code = Code(1021);

/// JNS: `o32 79 cb`.
pub const JNS_REL8_O32: Code = Code(180);

/// JNS: `o32 0F 89 cd`.
pub const JNS_REL32_O32: Code = Code(1020);

/// JP: `o64 7A cb`.
pub const JP_REL8: Code = Code(184);

/// JP: `o64 0F 8A cd`.
pub const JP_REL32: Code = Code(1024);

/// JP: `o32 7A cb`.
pub const JP_REL8_O32: Code = Code(183);

/// JP: `o32 0F 8A cd`.
pub const JP_REL32_O32: Code = Code(1023);

/// JNP: `o64 7B cb`.
pub const JNP_REL8: Code = Code(187);

/// JNP: `o64 0F 8B cd`.
pub const JNP_REL32: Code = Code(1027);

/// JNP: `o32 7B cb`.
pub const JNP_REL8_O32: Code = Code(186);

/// JNP: `o32 0F 8B cd`.
pub const JNP_REL32_O32: Code = Code(1026);

/// JL: `o64 7C cb`.
pub const JL_REL8: Code = Code(190);

/// JL: `o64 0F 8C cd`.
pub const JL_REL32: Code = Code(1030);

/// JL: `o32 7C cb`.
pub const JL_REL8_O32: Code = Code(189);

/// JL: `o32 0F 8C cd`.
pub const JL_REL32_O32: Code = Code(1029);

/// JGE: `o64 7D cb`.
pub const JGE_REL8: Code = Code(193);

/// JGE: `o64 0F 8D cd`.
pub const JGE_REL32: Code = Code(1033);

/// JGE: `o32 7D cb`.
pub const JGE_REL8_O32: Code = Code(192);

/// JGE: `o32 0F 8D cd`.
pub const JGE_REL32_O32: Code = Code(1032);

/// JLE: `o64 7E cb`.
pub const JLE_REL8: Code = Code(196);

/// JLE: `o64 0F 8E cd`.
pub const JLE_REL32: Code = Code(1036);

/// JLE: `o32 7E cb`.
pub const JLE_REL8_O32: Code = Code(195);

/// JLE: `o32 0F 8E cd`.
pub const JLE_REL32_O32: Code = Code(1035);

/// JG: `o64 7F cb`.
pub const JG_REL8: Code = Code(199);

/// JG: `o64 0F 8F cd`.
pub const JG_REL32: Code = Code(1039);

/// JG: `o32 7F cb`.
pub const JG_REL8_O32: Code = Code(198);

/// JG: `o32 0F 8F cd`.
pub const JG_REL32_O32: Code = Code(1038);

/// RET: `o64 C3`.
pub const RET: Code = Code(381);

/// RET: `o32 C3`.
pub const RET_O32: Code = Code(380);

/// RET: `o64 C2 iw`.
pub const RET_IMM16: Code = Code(378);

/// PUSH: `o64 50+ro`.
pub const PUSH_R64: Code = Code(120);

/// PUSH: `o32 50+rd`.
pub const PUSH_R32: Code = Code(119);

/// PUSH: `o64 6A ib`.
pub const PUSH_IMM8: Code = Code(142);

/// PUSH: `o64 68 id`.
pub const PUSH_IMM32: Code = Code(136);

/// PUSH: `o64 FF /6`.
pub const PUSH_RM64: Code = Code(697);

/// POP: `o64 58+ro`.
pub const POP_R64: Code = Code(123);

/// POP: `o32 58+rd`.
pub const POP_R32: Code = Code(122);

/// POP: `o64 8F /0`.
pub const POP_RM64: Code = Code(289);

/// PUSHFQ: `o64 9C`.
pub const PUSHFQ: Code = Code(306);

/// POPFQ: `o64 9D`.
pub const POPFQ: Code = Code(309);

/// NOP: `NF3 90`.
pub const NOP: Code = Code(290);

/// INT3: `CC`.
pub const INT3: Code = Code(402);

/// UD2: `0F 0B`.
pub const UD2: Code = Code(744);

/// SYSCALL: `0F 05`.
pub const SYSCALL: Code = Code(738);

/// HLT: `F4`.
pub const HLT: Code = Code(639);

/// LEAVE: `o64 C9`.
pub const LEAVE: Code = Code(395);

/// ENDBR64: `F3 0F 1E FA`.
pub const ENDBR64: Code = Code(777);

/// NOP: `o32 0F 1F /0`.
pub const NOP_RM32: Code = Code(780);

/// MOV: `REX.W + 89 /r`.
pub const MOV_RM64_R64: Code = Code(275);

/// MOV: `REX.W + 8B /r`.
pub const MOV_R64_RM64: Code = Code(279);

/// MOV: `REX.W + B8+ro io`.
pub const MOV_R64_IMM64: Code = Code(347);

/// MOV: `REX.W + C7 /0 id`.
pub const MOV_RM64_IMM32: Code = Code(389);

/// LEA: `REX.W + 8D /r`.
pub const LEA_R64: Code = Code(285);

/// XCHG: `REX.W + 87 /r`.
pub const XCHG_RM64_R64: Code = Code(271);

/// TEST: `REX.W + 85 /r`.
pub const TEST_RM64_R64: Code = Code(267);

/// TEST: `REX.W + F7 /0 id`.
pub const TEST_RM64_IMM32: Code = Code(650);

/// ADD: `REX.W + 01 /r`.
pub const ADD_RM64_R64: Code = Code(3);

/// ADD: `REX.W + 03 /r`.
pub const ADD_R64_RM64: Code = Code(7);

/// ADD: `REX.W + 83 /0 ib`.
pub const ADD_RM64_IMM8: Code = Code(242);

/// ADD: `REX.W + 81 /0 id`.
pub const ADD_RM64_IMM32: Code = Code(210);

/// OR: `REX.W + 09 /r`.
pub const OR_RM64_R64: Code = Code(19);

/// OR: `REX.W + 0B /r`.
pub const OR_R64_RM64: Code = Code(23);

/// OR: `REX.W + 83 /1 ib`.
pub const OR_RM64_IMM8: Code = Code(245);

/// OR: `REX.W + 81 /1 id`.
pub const OR_RM64_IMM32: Code = Code(213);

/// ADC: `REX.W + 11 /r`.
pub const ADC_RM64_R64: Code = Code(33);

/// ADC: `REX.W + 13 /r`.
pub const ADC_R64_RM64: Code = Code(37);

/// ADC: `REX.W + 83 /2 ib`.
pub const ADC_RM64_IMM8: Code = Code(248);

/// ADC: `REX.W + 81 /2 id`.
pub const ADC_RM64_IMM32: Code = Code(216);

/// SBB: `REX.W + 19 /r`.
pub const SBB_RM64_R64: Code = Code(49);

/// SBB: `REX.W + 1B /r`.
pub const SBB_R64_RM64: Code = Code(53);

/// SBB: `REX.W + 83 /3 ib`.
pub const SBB_RM64_IMM8: Code = Code(251);

/// SBB: `REX.W + 81 /3 id`.
pub const SBB_RM64_IMM32: Code = Code(219);

/// AND: `REX.W + 21 /r`.
pub const AND_RM64_R64: Code = Code(65);

/// AND: `REX.W + 23 /r`.
pub const AND_R64_RM64: Code = Code(69);

/// AND: `REX.W + 83 /4 ib`.
pub const AND_RM64_IMM8: Code = Code(254);

/// AND: `REX.W + 81 /4 id`.
pub const AND_RM64_IMM32: Code = Code(222);

/// SUB: `REX.W + 29 /r`.
pub const SUB_RM64_R64: Code = Code(78);

/// SUB: `REX.W + 2B /r`.
pub const SUB_R64_RM64: Code = Code(82);

/// SUB: `REX.W + 83 /5 ib`.
pub const SUB_RM64_IMM8: Code = Code(257);

/// SUB: `REX.W + 81 /5 id`.
pub const SUB_RM64_IMM32: Code = Code(225);

/// XOR: `REX.W + 31 /r`.
pub const XOR_RM64_R64: Code = Code(91);

/// XOR: `REX.W + 33 /r`.
pub const XOR_R64_RM64: Code = Code(95);

/// XOR: `REX.W + 83 /6 ib`.
pub const XOR_RM64_IMM8: Code = Code(260);

/// XOR: `REX.W + 81 /6 id`.
pub const XOR_RM64_IMM32: Code = Code(228);

/// CMP: `REX.W + 39 /r`.
pub const CMP_RM64_R64: Code = Code(104);

/// CMP: `REX.W + 3B /r`.
pub const CMP_R64_RM64: Code = Code(108);

/// CMP: `REX.W + 83 /7 ib`.
pub const CMP_RM64_IMM8: Code = Code(263);

/// CMP: `REX.W + 81 /7 id`.
pub const CMP_RM64_IMM32: Code = Code(231);

/// MOV: `o32 89 /r`.
pub const MOV_RM32_R32: Code = Code(274);

/// MOV: `o32 8B /r`.
pub const MOV_R32_RM32: Code = Code(278);

/// MOV: `o32 B8+rd id`.
pub const MOV_R32_IMM32: Code = Code(346);

/// MOV: `o32 C7 /0 id`.
pub const MOV_RM32_IMM32: Code = Code(388);

/// LEA: `o32 8D /r`.
pub const LEA_R32: Code = Code(284);

/// XCHG: `o32 87 /r`.
pub const XCHG_RM32_R32: Code = Code(270);

/// TEST: `o32 85 /r`.
pub const TEST_RM32_R32: Code = Code(266);

/// TEST: `o32 F7 /0 id`.
pub const TEST_RM32_IMM32: Code = Code(649);

/// ADD: `o32 01 /r`.
pub const ADD_RM32_R32: Code = Code(2);

/// ADD: `o32 03 /r`.
pub const ADD_R32_RM32: Code = Code(6);

/// ADD: `o32 83 /0 ib`.
pub const ADD_RM32_IMM8: Code = Code(241);

/// ADD: `o32 81 /0 id`.
pub const ADD_RM32_IMM32: Code = Code(209);

/// OR: `o32 09 /r`.
pub const OR_RM32_R32: Code = Code(18);

/// OR: `o32 0B /r`.
pub const OR_R32_RM32: Code = Code(22);

/// OR: `o32 83 /1 ib`.
pub const OR_RM32_IMM8: Code = Code(244);

/// OR: `o32 81 /1 id`.
pub const OR_RM32_IMM32: Code = Code(212);

/// ADC: `o32 11 /r`.
pub const ADC_RM32_R32: Code = Code(32);

/// ADC: `o32 13 /r`.
pub const ADC_R32_RM32: Code = Code(36);

/// ADC: `o32 83 /2 ib`.
pub const ADC_RM32_IMM8: Code = Code(247);

/// ADC: `o32 81 /2 id`.
pub const ADC_RM32_IMM32: Code = Code(215);

/// SBB: `o32 19 /r`.
pub const SBB_RM32_R32: Code = Code(48);

/// SBB: `o32 1B /r`.
pub const SBB_R32_RM32: Code = Code(52);

/// SBB: `o32 83 /3 ib`.
pub const SBB_RM32_IMM8: Code = Code(250);

/// SBB: `o32 81 /3 id`.
pub const SBB_RM32_IMM32: Code = Code(218);

/// AND: `o32 21 /r`.
pub const AND_RM32_R32: Code = Code(64);

/// AND: `o32 23 /r`.
pub const AND_R32_RM32: Code = Code(68);

/// AND: `o32 83 /4 ib`.
pub const AND_RM32_IMM8: Code = Code(253);

/// AND: `o32 81 /4 id`.
pub const AND_RM32_IMM32: Code = Code(221);

/// SUB: `o32 29 /r`.
pub const SUB_RM32_R32: Code = Code(77);

/// SUB: `o32 2B /r`.
pub const SUB_R32_RM32: Code = Code(81);

/// SUB: `o32 83 /5 ib`.
pub const SUB_RM32_IMM8: Code = Code(256);

/// SUB: `o32 81 /5 id`.
pub const SUB_RM32_IMM32: Code = Code(224);

/// XOR: `o32 31 /r`.
pub const XOR_RM32_R32: Code = Code(90);

/// XOR: `o32 33 /r`.
pub const XOR_R32_RM32: Code = Code(94);

/// XOR: `o32 83 /6 ib`.
pub const XOR_RM32_IMM8: Code = Code(259);

/// XOR: `o32 81 /6 id`.
pub const XOR_RM32_IMM32: Code = Code(227);

/// CMP: `o32 39 /r`.
pub const CMP_RM32_R32: Code = Code(103);

/// CMP: `o32 3B /r`.
pub const CMP_R32_RM32: Code = Code(107);

/// CMP: `o32 83 /7 ib`.
pub const CMP_RM32_IMM8: Code = Code(262);

/// CMP: `o32 81 /7 id`.
pub const CMP_RM32_IMM32: Code = Code(230);

/// MOV: `88 /r`.
pub const MOV_RM8_R8: Code = Code(272);

/// MOV: `8A /r`.
pub const MOV_R8_RM8: Code = Code(276);

/// MOV: `B0+rb ib`.
pub const MOV_R8_IMM8: Code = Code(344);

/// MOV: `C6 /0 ib`.
pub const MOV_RM8_IMM8: Code = Code(386);
