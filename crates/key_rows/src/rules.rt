//! Tokens with the rule that each breaks first.
use cca_vectors::Class;
use key_tokens::tvv;
use master_registers::{NewState, Pattern, Registers};
use verb_rules::{Asked, Classes, Need, Rule, Usage, judge_key};

const CURRENT_PATTERN: [u8; 8] = [0x5a; 8];

const OLD_PATTERN: [u8; 8] = [0xa5; 8];

/// An internal token of an IMPORTER key under the current master key, but for its validation value.
const IMPORTER_TOKEN: [u64; 8] = [
    0x0100_0000_0000_c000,
    0x5a5a_5a5a_5a5a_5a5a,
    0x1111_1111_1111_1111,
    0x2222_2222_2222_2222,
    0x0042_7d00_0341_0000,
    0x0042_7d00_0321_0000,
    0,
    0,
];

/// The rules of a key operand in their order, from number 9 on.
const RULES: [Rule; 14] = [
    Rule::Kind,
    Rule::Tvv,
    Rule::Version,
    Rule::Flag,
    Rule::Reserved,
    Rule::Parity,
    Rule::AntiVariant,
    Rule::KeyForm,
    Rule::KeyPart,
    Rule::Pattern,
    Rule::Class,
    Rule::Usage,
    Rule::Export,
    Rule::TransportLength,
];

fn importer_token() -> [u8; 64] {
    let mut bytes = [0; 64];
    for i in 0..8 {
        bytes[8 * i..8 * i + 8].copy_from_slice(&IMPORTER_TOKEN[i].to_be_bytes());
    }
    bytes
}

/// Makes a byte of the control vector even by its last bit, after some of its bits were taken away.
fn without_bits(byte: u8, bits: u8) -> u8 {
    let seven = (byte & !bits) / 2;
    seven * 2 + (seven.count_ones() % 2) as u8
}

/// Changes the token so that it breaks a rule: the TVV is told apart later.
fn break_rule(bytes: &mut [u8; 64], rule: Rule) {
    match rule {
        Rule::Kind => bytes[0] = 0x02,
        Rule::Version => bytes[4] = 0x01,
        Rule::Flag => bytes[6] = 0x40,
        Rule::Reserved => bytes[7] = 0x01,
        Rule::Parity => bytes[32] = 0x01,
        Rule::AntiVariant => bytes[36] = 0x00,
        Rule::KeyForm => bytes[40] = 0x03,
        Rule::KeyPart => {
            bytes[37] = 0x48;
            bytes[45] = 0x28;
        }
        Rule::Pattern => bytes[8] = 0x5b,
        Rule::Class => {
            bytes[33] = 0x41;
            bytes[41] = 0x41;
        }
        Rule::Usage => {
            bytes[34] = without_bits(bytes[34], 0x04);
            bytes[42] = without_bits(bytes[42], 0x04);
        }
        Rule::Export => {
            bytes[34] = without_bits(bytes[34], 0x40);
            bytes[42] = without_bits(bytes[42], 0x40);
        }
        Rule::TransportLength => {
            bytes[37] = 0x00;
            bytes[40..48].fill(0);
            bytes[24..32].fill(0);
        }
        _ => {}
    }
}

/// The token with its validation value, or with another one where that rule is to be broken.
fn valued(mut bytes: [u8; 64], wrong: bool) -> [u8; 64] {
    let value = tvv(&bytes) ^ (wrong as u32);
    bytes[60..].copy_from_slice(&value.to_be_bytes());
    bytes
}

/// The IMPORTER token, changed so that it breaks these rules.
fn broken(rules: &[Rule]) -> [u8; 64] {
    let mut bytes = importer_token();
    let mut wrong = false;
    for rule in rules {
        break_rule(&mut bytes, *rule);
        wrong = wrong || *rule == Rule::Tvv;
    }
    valued(bytes, wrong)
}

/// Every rule is asked.
fn importer_need() -> Need {
    Need {
        asked: Asked::Internal,
        classes: Classes::of(&[Class::Importer]),
        usage: Some(Usage::Transport),
        export: true,
        double: true,
        parts: false,
    }
}

fn registers() -> Registers {
    Registers {
        new_state: NewState::Empty,
        current_pattern: Some(Pattern {
            bytes: CURRENT_PATTERN,
        }),
        old_pattern: Some(Pattern { bytes: OLD_PATTERN }),
    }
}

fn first_rule(token: &[u8; 64], need: &Need) -> Option<Rule> {
    if need.asked == Asked::Either {
        return None;
    }
    judge_key(token, need, &registers()).err()
}

/// Each rule alone, and with the one behind it.
#[test]
fn the_earlier_rule_comes_first(rt: HostRuntime) {
    let need = importer_need();
    assert!(rt; first_rule(&broken(&[]), &need) == None);
    for at in 0..RULES.len() {
        let rule = RULES[at];
        let next = RULES[(at + 1).min(13)];
        assert!(rt;
            first_rule(&broken(&[rule]), &need) == Some(rule),
            "{rule:?}"
        );
        assert!(rt;
            first_rule(&broken(&[rule, next]), &need) == Some(rule),
            "{rule:?}"
        );
    }
}
