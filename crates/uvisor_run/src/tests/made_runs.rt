use crate::scripted;
use crate::tests::answers::{source_of, words_of};
use crate::tests::evaluator::check_evaluated;
use crate::tests::made_inputs::made_input;
use io_edge::MemSink;
use std::alloc::Global;
use std::test::Fail;

// How many inputs are made.
const INPUTS: u32 = 200;

#[test]
fn the_machine_replies_as_the_plain_evaluator_on_made_inputs(rt: HostRuntime) -> Result<(), Fail> {
    for number in 0..INPUTS {
        let input = made_input(rt.alloc(), number)?;
        check_evaluated(&rt, rt.alloc(), input.as_str())?;
    }
    Ok(())
}

// A sum over the bytes of a text, FNV-1a of 32 bits.
fn sum_of(bytes: &[u8]) -> u32 {
    let mut sum: u32 = 0x811C_9DC5;
    for byte in bytes {
        sum = (sum ^ *byte as u32).wrapping_mul(0x0100_0193);
    }
    sum
}

// The sum of all inputs, each by its sum.
const INPUTS_SUM: u32 = 0xFFD0_5585;

#[test]
fn made_inputs_stay_the_same(rt: HostRuntime) -> Result<(), Fail> {
    let mut total: u32 = 0;
    for number in 0..INPUTS {
        let input = made_input(rt.alloc(), number)?;
        total = total.wrapping_mul(31) ^ sum_of(input.as_bytes());
    }
    assert_eq!(rt; total, INPUTS_SUM);
    Ok(())
}

// The sums of the logs of the inputs, as a program outside of this repository has them, which was written from the rules
// alone.
const SUMS: [u32; 200] = [
    0x3B55_E323,
    0x43CA_01D1,
    0xDA1A_B401,
    0xDDAA_E337,
    0x5673_7D42,
    0x8C9F_4F21,
    0xFD0A_868B,
    0xAC83_7570,
    0xBF4A_A959,
    0x434A_AAAA,
    0x35F8_662F,
    0xB4F3_0F6C,
    0x8958_B731,
    0x1CC4_F349,
    0xBC62_8327,
    0x17AD_C7EB,
    0x7F21_2F4B,
    0xBDCD_FFF4,
    0x940C_FFBF,
    0xFE2A_55F3,
    0xAC07_7231,
    0x947E_5791,
    0x4489_3DA4,
    0xAD35_071F,
    0xF81C_BA5D,
    0x3FD1_5B96,
    0xFA17_1FA1,
    0xF2F9_E42B,
    0xFF1F_F75D,
    0x5DFA_838A,
    0x8626_DAB8,
    0x1B4F_69D0,
    0x00CD_2F0D,
    0xF7DD_5BAB,
    0x9D76_A223,
    0x34DC_56F3,
    0x6AAA_9C88,
    0xAEF1_5A44,
    0x3496_0E9E,
    0x3C23_66F1,
    0x3606_F34B,
    0xA8E9_2747,
    0xA46C_13B0,
    0x4ABE_8ED9,
    0x52C5_8B37,
    0x0FB6_2736,
    0x7C41_FEB6,
    0x050C_2CC3,
    0xD715_E361,
    0x25D1_98E3,
    0xD14A_DD69,
    0xCEE5_D6D8,
    0x7CB4_1BEF,
    0x8284_2023,
    0x7E59_A988,
    0x3C88_03D5,
    0x3EF7_5810,
    0x5AEA_5BA8,
    0x720A_9A9C,
    0x094F_5A60,
    0x3F81_F153,
    0x8BFB_04F0,
    0x0176_7EB6,
    0x373E_77AC,
    0x9AE1_61E5,
    0xFF13_BDCB,
    0xCA10_8E19,
    0xA576_2F09,
    0x6B57_AE41,
    0x7BC9_0A45,
    0x7B03_A9E7,
    0x0742_5936,
    0xCD91_B394,
    0x21F0_9AE6,
    0x0B06_D624,
    0x5CE2_A82A,
    0xCE75_2EAE,
    0x3696_F8A8,
    0x1E60_7131,
    0x0228_B85C,
    0x3474_4AE1,
    0xA220_4D0B,
    0x59C7_5519,
    0x502D_3D01,
    0x0469_51FB,
    0x71CB_B6C0,
    0x5923_E061,
    0x2790_D09B,
    0xDAD9_D61D,
    0x3EAA_2668,
    0x28FC_647C,
    0xC4F0_9F9A,
    0xE3BB_0491,
    0x8C10_D16C,
    0xEBCA_1D80,
    0x9227_188F,
    0xBD39_003F,
    0x5741_6797,
    0x8CC5_19ED,
    0xDCC1_0376,
    0x4C50_35A0,
    0x8A07_2700,
    0x7562_4E7C,
    0x0783_F2C9,
    0x0245_7155,
    0x1216_FDF5,
    0x19CA_7541,
    0x566C_1109,
    0xBE02_4443,
    0xB93B_B339,
    0x7B5D_46CB,
    0x0674_4E26,
    0xB532_D284,
    0xB159_7326,
    0x80C2_E483,
    0x0047_6312,
    0xF662_2434,
    0x890D_26FB,
    0xCEB8_CD54,
    0x1809_5922,
    0x3185_CFEE,
    0xD137_A62E,
    0x1B9D_9050,
    0x37B8_91B4,
    0xA3B7_16AC,
    0xC360_1C6E,
    0xE752_E5F4,
    0x5E70_7039,
    0x6532_CB8B,
    0xCFDA_AC54,
    0x810C_31F1,
    0x04B6_2317,
    0xC13B_4A39,
    0xB749_CDDF,
    0x52F8_90C0,
    0xAA38_5E05,
    0xF51C_C12B,
    0x537D_0DC2,
    0xE68C_E4A7,
    0x4DD3_724B,
    0xCB83_2776,
    0x35E4_175B,
    0x58B2_CE51,
    0x508B_6EC8,
    0xA48A_BAAB,
    0xCA3A_2972,
    0x90C6_0D42,
    0x906E_0BDF,
    0xF9AE_D662,
    0x7801_59B1,
    0x1B75_8018,
    0xCAAF_9DC4,
    0xA353_C82A,
    0xF3A9_19D4,
    0xE606_9C8B,
    0x75AF_9EF0,
    0xBDBD_919D,
    0x8E4E_D454,
    0xF12C_CA9A,
    0xB51D_8C89,
    0xC99D_9DD1,
    0xE00F_1C77,
    0x797B_03F0,
    0xA884_A0EE,
    0x7C05_0255,
    0xB5F9_ACD0,
    0x10A0_7EA0,
    0x0798_9705,
    0x79A2_86CB,
    0x5BAE_90BC,
    0x2061_DEC4,
    0xE052_5208,
    0x28E1_18BC,
    0xEB32_C64C,
    0xC2D5_DFEB,
    0x38B8_CD3B,
    0x2774_0384,
    0x9383_103D,
    0xDCFF_1312,
    0x6A48_B382,
    0x80A8_9FE4,
    0xE0AA_6DF2,
    0x926A_590A,
    0x11DB_3442,
    0xBC31_E920,
    0x49A4_279B,
    0xE125_C1A6,
    0x0476_5B85,
    0xF644_A7AC,
    0xF01E_DF31,
    0xC2D5_1A38,
    0xA335_C7D4,
    0x95A9_012F,
    0xABA2_ACE2,
    0xA016_945F,
    0x2BCA_9B7F,
    0xCA19_B73C,
    0x3247_539F,
    0x0B5E_86FB,
    0xE9A9_E60D,
];

// The sum of what the program writes of an input.
fn sum_of_log(alloc: Global, input: &str) -> Result<u32, Fail> {
    let words = words_of(alloc, &["script"])?;
    let mut source = source_of(alloc, input.as_bytes(), Vec::new(alloc))?;
    let room = Vec::with_capacity(alloc, 65_536)?;
    let mut sink = MemSink::new(room, 65_536, Vec::new(alloc));
    let _ = scripted(alloc, &words, &mut source, &mut sink);
    Ok(sum_of(sink.bytes()))
}

#[test]
fn made_inputs_have_the_logs_of_another_program(rt: HostRuntime) -> Result<(), Fail> {
    for number in 0..INPUTS {
        let input = made_input(rt.alloc(), number)?;
        let sum = sum_of_log(rt.alloc(), input.as_str())?;
        assert_eq!(rt;
            Some(sum),
            SUMS.get(number as usize).copied(),
            "of input {number}"
        );
    }
    Ok(())
}
