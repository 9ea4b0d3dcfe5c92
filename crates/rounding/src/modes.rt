// The mode numbers and their rules: whether a magnitude rises by one.
ghost use Rattle.std.specs.Prelude.{◌≡◌};
ghost use Rattle.rounding.specs.Modes.{choice_of, rises_by};
ghost use Rattle.rounding.specs.Answers.{number_of, answers_of};

use crate::{Rest, Rule};
use refusal::Refusal;

// The rule of a mode number, and refusal 1 for every other number.
impl TryFrom<u8> for Rule {
    type Error = Refusal;

    ghost try_from_gives = { λ mode rule. rule ≡ choice_of mode };

    #[tactic(auto, unfolding(crate::specs::Modes::choice_of, crate::specs::Modes::rule_of, crate::specs::Modes::bad_mode))]
    fn try_from(mode: u8) -> Result<Rule, Refusal> {
        match mode {
            0 => Ok(Rule::Up),
            1 => Ok(Rule::Down),
            2 => Ok(Rule::Ceiling),
            3 => Ok(Rule::Floor),
            4 => Ok(Rule::HalfUp),
            5 => Ok(Rule::HalfDown),
            6 => Ok(Rule::HalfEven),
            _ => Err(Refusal::Mode),
        }
    }
}

// The classes of a rest, counted.
fn number(rest: Rest) -> u32
    ensures { result ≡ number_of rest }
{
    match rest {
        Rest::Exact => 0,
        Rest::Below => 1,
        Rest::Half => 2,
        Rest::Above => 3,
    }
}

// The answers of a rule, a bit for each: a number below 0 with an odd and an even quotient, one that isn't with an odd and an even quotient, and
// for each of these the rest above the half, at it, below it and none.
fn answers(rule: Rule) -> u32
    ensures { result ≡ answers_of rule }
{
    match rule {
        Rule::Up => 0b1110_1110_1110_1110,
        Rule::Down => 0b0000_0000_0000_0000,
        Rule::Ceiling => 0b0000_0000_1110_1110,
        Rule::Floor => 0b1110_1110_0000_0000,
        Rule::HalfUp => 0b1100_1100_1100_1100,
        Rule::HalfDown => 0b1000_1000_1000_1000,
        Rule::HalfEven => 0b1100_1000_1100_1000,
    }
}

// Does the magnitude rise by one: from the rule, the number's sign, whether the quotient is odd, and the rest. No branch depends on any of them.
pub fn rises(rule: Rule, negative: bool, odd: bool, rest: Rest) -> bool
    ensures { result ≡ rises_by rule negative odd rest }
{
    let question = number(rest) + 4 * odd as u32 + 8 * negative as u32;
    (answers(rule) >> question) % 2 == 1
}
