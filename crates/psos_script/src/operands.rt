// Operands of a line, from left to right.
ghost use Rattle.std.specs.Prelude.{◌≡◌, ◌<◌, option_map, get_or, IfSome, IfOk, [], ◌∷◌};
ghost use Rattle.psos_text.specs.Lines.{words_of};
ghost use Rattle.psos_text.specs.Name.{name_text};
ghost use Rattle.psos_script.specs.Operands.{register_of, guard_of, first_word};
ghost use Rattle.psos_script.specs.Values.{take_of, none_left, seen_ok, cause_in};
ghost use Rattle.psos_script.specs.Fault.{operands_cause};
ghost use Rattle.psos_script.specs.declared.class.Class.TheVariants as Class;

use crate::cause::Cause;
use crate::class::Class;
use psos_caps::Rights;
use psos_text::{Name, Tokens, read_hex4, read_number};

// The first word, and what stands after it.
pub(crate) fn next_word(text: &[u8]) -> Option<(&[u8], &[u8])>
    ensures { option_map (λ p. (p.0.now, words_of p.1.now)) result ≡ first_word (words_of text.now) }
{
    let mut words = Tokens::new(text);
    let (place, word) = words.next()?;
    let (_, rest) = text.split_at(place + word.len());
    Some((word, rest))
}

#[tactic(auto, unfolding(crate::specs::Operands::register_of))]
fn register_word(text: &[u8]) -> Option<u8>
    ensures { result ≡ register_of text.now }
{
    match text {
        [b'r', d] if b'0' <= *d && *d <= b'9' => Some(*d - b'0'),
        [b'r', b'1', d] if b'0' <= *d && *d <= b'5' => Some(*d - 38),
        _ => None,
    }
}

#[tactic(auto, unfolding(crate::specs::Operands::guard_of))]
fn guard_word(text: &[u8]) -> Option<u8>
    ensures { result ≡ guard_of text.now }
{
    match text {
        [d] if b'0' <= *d && *d <= b'7' => Some(*d - b'0'),
        _ => None,
    }
}

#[tactic(auto, unfolding(crate::specs::Values::take_of, crate::specs::Values::value_of))]
pub(crate) fn register(text: &[u8]) -> Result<(u8, &[u8]), Cause>
    ensures { seen_ok (λ p. (p.0, words_of p.1.now)) result ≡ take_of Class.Register (words_of text.now) }
{
    let Some((word, rest)) = next_word(text) else {
        return Err(Cause::Missing(Class::Register));
    };
    match register_word(word) {
        Some(r) => Ok((r, rest)),
        None => Err(Cause::Wrong(Class::Register)),
    }
}

#[tactic(auto, unfolding(crate::specs::Values::take_of, crate::specs::Values::value_of))]
pub(crate) fn number(text: &[u8]) -> Result<(u64, &[u8]), Cause>
    ensures { seen_ok (λ p. (p.0, words_of p.1.now)) result ≡ take_of Class.Number (words_of text.now) }
{
    let Some((word, rest)) = next_word(text) else {
        return Err(Cause::Missing(Class::Number));
    };
    match read_number(word) {
        Ok(n) => Ok((n, rest)),
        Err(_) => Err(Cause::Wrong(Class::Number)),
    }
}

#[tactic(auto, unfolding(crate::specs::Values::take_of, crate::specs::Values::value_of))]
pub(crate) fn hex(text: &[u8]) -> Result<(Rights, &[u8]), Cause>
    ensures { seen_ok (λ p. (p.0.0, words_of p.1.now)) result ≡ take_of Class.Hex (words_of text.now) }
{
    let Some((word, rest)) = next_word(text) else {
        return Err(Cause::Missing(Class::Hex));
    };
    match read_hex4(word) {
        Ok(bits) => Ok((Rights::of(bits), rest)),
        Err(_) => Err(Cause::Wrong(Class::Hex)),
    }
}

#[tactic(auto, unfolding(crate::specs::Values::take_of, crate::specs::Values::value_of))]
pub(crate) fn name(text: &[u8]) -> Result<(Name, &[u8]), Cause>
    ensures { seen_ok (λ p. (p.0, words_of p.1.now)) result ≡ take_of Class.Name (words_of text.now) }
{
    let Some((word, rest)) = next_word(text) else {
        return Err(Cause::Missing(Class::Name));
    };
    match Name::read(word) {
        Ok(n) => Ok((n, rest)),
        Err(_) => Err(Cause::Wrong(Class::Name)),
    }
}

#[tactic(auto, unfolding(crate::specs::Values::take_of, crate::specs::Values::value_of))]
pub(crate) fn label(text: &[u8]) -> Result<(Name, &[u8]), Cause>
    ensures { seen_ok (λ p. (name_text p.0, words_of p.1.now)) result ≡ take_of Class.Label (words_of text.now) }
{
    let Some((word, rest)) = next_word(text) else {
        return Err(Cause::Missing(Class::Label));
    };
    match Name::read(word) {
        Ok(n) => Ok((n, rest)),
        Err(_) => Err(Cause::Wrong(Class::Label)),
    }
}

#[tactic(auto, unfolding(crate::specs::Values::take_of, crate::specs::Values::value_of))]
pub(crate) fn guard(text: &[u8]) -> Result<(u8, &[u8]), Cause>
    ensures { seen_ok (λ p. (p.0, words_of p.1.now)) result ≡ take_of Class.Guard (words_of text.now) }
{
    let Some((word, rest)) = next_word(text) else {
        return Err(Cause::Missing(Class::Guard));
    };
    match guard_word(word) {
        Some(g) => Ok((g, rest)),
        None => Err(Cause::Wrong(Class::Guard)),
    }
}

// That no word is left.
#[tactic(auto, unfolding(crate::specs::Values::none_left))]
pub(crate) fn end(text: &[u8]) -> Result<(), Cause>
    ensures { result ≡ none_left (words_of text.now) }
{
    match next_word(text) {
        None => Ok(()),
        Some(_) => Err(Cause::TooManyWords),
    }
}

// The label, where it is the only word.
#[tactic(auto, unfolding(crate::specs::Fault::operands_cause, crate::specs::Operands::is_operand, crate::specs::Values::take_of, crate::specs::Values::value_of, crate::specs::Values::none_left))]
pub(crate) fn only_label(text: &[u8]) -> Result<Name, Cause>
    ensures cause { cause_in result ≡ operands_cause (Class.Label ∷ []) (words_of text.now) }
    ensures text { IfOk result (λ n. name_text n ≡ get_or (words_of text.now) 0 []) }
{
    let (label, rest) = label(text)?;
    end(rest)?;
    Ok(label)
}

// The name, where it is the only word.
#[tactic(auto, unfolding(crate::specs::Fault::operands_cause, crate::specs::Operands::is_operand, crate::specs::Values::take_of, crate::specs::Values::value_of, crate::specs::Values::none_left))]
pub(crate) fn only_name(text: &[u8]) -> Result<Name, Cause>
    ensures cause { cause_in result ≡ operands_cause (Class.Name ∷ []) (words_of text.now) }
    ensures text { IfOk result (λ n. name_text n ≡ get_or (words_of text.now) 0 []) }
{
    let Some((word, rest)) = next_word(text) else {
        return Err(Cause::Missing(Class::Name));
    };
    let Ok(name) = Name::read(word) else {
        return Err(Cause::Wrong(Class::Name));
    };
    end(rest)?;
    Ok(name)
}
