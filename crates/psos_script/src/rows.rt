// Requests by their verbs.
ghost use Rattle.std.specs.Prelude.{◌≡◌, [], ◌∷◌};
ghost use Rattle.psos_text.specs.Lines.{words_of};
ghost use Rattle.psos_text.specs.Name.{name_text};
ghost use Rattle.psos_script.specs.Values.{values_of, row_of, seen_ok};
ghost use Rattle.psos_script.specs.declared.class.Class.TheVariants as Class;
ghost use Rattle.psos_script.specs.declared.verb.Verb.TheVariants as Verb;

use crate::cause::Cause;
use crate::name_list::NameList;
use crate::operands::{end, guard, hex, label, name, number, register};
use crate::verb::Verb;
use psos_calls::Request;
use psos_caps::Rights;
use psos_text::Name;

fn one_register(text: &[u8]) -> Result<u8, Cause>
    ensures { seen_ok (λ r. (r, tt)) result ≡ values_of (Class.Register ∷ []) (words_of text.now) }
{
    let (a, rest) = register(text)?;
    end(rest)?;
    Ok(a)
}

fn two_registers(text: &[u8]) -> Result<(u8, u8), Cause>
    ensures { seen_ok (λ p. (p.0, (p.1, tt))) result ≡ values_of (Class.Register ∷ Class.Register ∷ []) (words_of text.now) }
{
    let (a, rest) = register(text)?;
    let (b, rest) = register(rest)?;
    end(rest)?;
    Ok((a, b))
}

fn three_registers(text: &[u8]) -> Result<(u8, u8, u8), Cause>
    ensures { seen_ok (λ p. (p.0, (p.1, (p.2, tt)))) result ≡ values_of (Class.Register ∷ Class.Register ∷ Class.Register ∷ []) (words_of text.now) }
{
    let (a, rest) = register(text)?;
    let (b, rest) = register(rest)?;
    let (c, rest) = register(rest)?;
    end(rest)?;
    Ok((a, b, c))
}

fn registers_hex(text: &[u8]) -> Result<(u8, u8, Rights), Cause>
    ensures { seen_ok (λ p. (p.0, (p.1, (p.2.0, tt)))) result ≡ values_of (Class.Register ∷ Class.Register ∷ Class.Hex ∷ []) (words_of text.now) }
{
    let (a, rest) = register(text)?;
    let (b, rest) = register(rest)?;
    let (c, rest) = hex(rest)?;
    end(rest)?;
    Ok((a, b, c))
}

fn register_number(text: &[u8]) -> Result<(u8, u64), Cause>
    ensures { seen_ok (λ p. (p.0, (p.1, tt))) result ≡ values_of (Class.Register ∷ Class.Number ∷ []) (words_of text.now) }
{
    let (a, rest) = register(text)?;
    let (b, rest) = number(rest)?;
    end(rest)?;
    Ok((a, b))
}

fn registers_number(text: &[u8]) -> Result<(u8, u8, u64), Cause>
    ensures { seen_ok (λ p. (p.0, (p.1, (p.2, tt)))) result ≡ values_of (Class.Register ∷ Class.Register ∷ Class.Number ∷ []) (words_of text.now) }
{
    let (a, rest) = register(text)?;
    let (b, rest) = register(rest)?;
    let (c, rest) = number(rest)?;
    end(rest)?;
    Ok((a, b, c))
}

fn number_between(text: &[u8]) -> Result<(u8, u64, u8), Cause>
    ensures { seen_ok (λ p. (p.0, (p.1, (p.2, tt)))) result ≡ values_of (Class.Register ∷ Class.Number ∷ Class.Register ∷ []) (words_of text.now) }
{
    let (a, rest) = register(text)?;
    let (b, rest) = number(rest)?;
    let (c, rest) = register(rest)?;
    end(rest)?;
    Ok((a, b, c))
}

// The request `window` of the operands.
fn window_request(text: &[u8]) -> Result<Request, Cause>
    ensures { result ≡ row_of [] Verb.Window (words_of text.now) }
{
    let (rd, rest) = register(text)?;
    let (rs, rest) = register(rest)?;
    let (base, rest) = number(rest)?;
    let (len, rest) = number(rest)?;
    end(rest)?;
    Ok(Request::Window { rd, rs, base, len })
}

fn registers_name(text: &[u8]) -> Result<(u8, u8, Name), Cause>
    ensures { seen_ok (λ p. (p.0, (p.1, (p.2, tt)))) result ≡ values_of (Class.Register ∷ Class.Register ∷ Class.Name ∷ []) (words_of text.now) }
{
    let (a, rest) = register(text)?;
    let (b, rest) = register(rest)?;
    let (c, rest) = name(rest)?;
    end(rest)?;
    Ok((a, b, c))
}

fn name_between(text: &[u8]) -> Result<(u8, Name, u8), Cause>
    ensures { seen_ok (λ p. (p.0, (p.1, (p.2, tt)))) result ≡ values_of (Class.Register ∷ Class.Name ∷ Class.Register ∷ []) (words_of text.now) }
{
    let (a, rest) = register(text)?;
    let (b, rest) = name(rest)?;
    let (c, rest) = register(rest)?;
    end(rest)?;
    Ok((a, b, c))
}

fn register_name(text: &[u8]) -> Result<(u8, Name), Cause>
    ensures { seen_ok (λ p. (p.0, (p.1, tt))) result ≡ values_of (Class.Register ∷ Class.Name ∷ []) (words_of text.now) }
{
    let (a, rest) = register(text)?;
    let (b, rest) = name(rest)?;
    end(rest)?;
    Ok((a, b))
}

// The request `mkseg` of the operands.
fn segment_request(text: &[u8]) -> Result<Request, Cause>
    ensures { result ≡ row_of [] Verb.MkSeg (words_of text.now) }
{
    let (rd, rest) = register(text)?;
    let (rs, rest) = register(rest)?;
    let (name, rest) = name(rest)?;
    let (len, rest) = number(rest)?;
    let (guard, rest) = guard(rest)?;
    end(rest)?;
    Ok(Request::MkSeg {
        rd,
        rs,
        name,
        len,
        guard,
    })
}

// The request `mkdir` of the operands.
fn directory_request(text: &[u8]) -> Result<Request, Cause>
    ensures { result ≡ row_of [] Verb.MkDir (words_of text.now) }
{
    let (rd, rest) = register(text)?;
    let (rs, rest) = register(rest)?;
    let (name, rest) = name(rest)?;
    let (guard, rest) = guard(rest)?;
    end(rest)?;
    Ok(Request::MkDir {
        rd,
        rs,
        name,
        guard,
    })
}

// The request `mkobj` of the operands.
fn object_request(text: &[u8]) -> Result<Request, Cause>
    ensures { result ≡ row_of [] Verb.MkObj (words_of text.now) }
{
    let (rd, rest) = register(text)?;
    let (rt, rest) = register(rest)?;
    let (rs, rest) = register(rest)?;
    let (name, rest) = name(rest)?;
    let (len, rest) = number(rest)?;
    end(rest)?;
    Ok(Request::MkObj {
        rd,
        rt,
        rs,
        name,
        len,
    })
}

fn code_operands(text: &[u8]) -> Result<(u8, u8, Name, Name, u8), Cause>
    ensures { seen_ok (λ p. (p.0, (p.1, (p.2, (name_text p.3, (p.4, tt)))))) result ≡ values_of (Class.Register ∷ Class.Register ∷ Class.Name ∷ Class.Label ∷ Class.Register ∷ []) (words_of text.now) }
{
    let (a, rest) = register(text)?;
    let (b, rest) = register(rest)?;
    let (c, rest) = name(rest)?;
    let (d, rest) = label(rest)?;
    let (e, rest) = register(rest)?;
    end(rest)?;
    Ok((a, b, c, d, e))
}

// The request `mkcode` of the operands.
fn code_request(labels: &NameList, text: &[u8]) -> Result<Request, Cause>
    ensures { result ≡ row_of labels.now Verb.MkCode (words_of text.now) }
{
    let (rd, rs, name, label, rl) = code_operands(text)?;
    let number = labels.number(label.as_bytes());
    if usize::from(number) >= labels.len() {
        return Err(Cause::UnknownLabel);
    }
    Ok(Request::MkCode {
        rd,
        rs,
        name,
        label: number,
        rl,
    })
}

// The request of the verb and the operands.
pub(crate) fn request(verb: Verb, labels: &NameList, text: &[u8]) -> Result<Request, Cause>
    ensures { result ≡ row_of labels.now verb (words_of text.now) }
{
    match verb {
        Verb::Mint => one_register(text).map(|rd| Request::Mint { rd }),
        Verb::Restrict => registers_hex(text).map(|(rd, rs, keep)| Request::Restrict {
            rd,
            rs,
            keep,
        }),
        Verb::Set => register_number(text).map(|(rd, n)| Request::Set { rd, n }),
        Verb::Move => two_registers(text).map(|(rd, rs)| Request::Move { rd, rs }),
        Verb::Add => three_registers(text).map(|(rd, ra, rb)| Request::Add { rd, ra, rb }),
        Verb::Read => registers_number(text).map(|(rd, rs, n)| Request::Read { rd, rs, n }),
        Verb::Write => number_between(text).map(|(rs, n, rv)| Request::Write { rs, n, rv }),
        Verb::Window => window_request(text),
        Verb::Length => two_registers(text).map(|(rd, rs)| Request::Length { rd, rs }),
        Verb::Lookup => registers_name(text).map(|(rd, rs, name)| Request::Lookup { rd, rs, name }),
        Verb::Bind => name_between(text).map(|(rs, name, rv)| Request::Bind { rs, name, rv }),
        Verb::Unbind => register_name(text).map(|(rs, name)| Request::Unbind { rs, name }),
        Verb::List => one_register(text).map(|rs| Request::List { rs }),
        Verb::Impl => three_registers(text).map(|(rd, rt, ro)| Request::Impl { rd, rt, ro }),
        Verb::MkSeg => segment_request(text),
        Verb::MkDir => directory_request(text),
        Verb::MkType => registers_name(text).map(|(rd, rs, name)| Request::MkType { rd, rs, name }),
        Verb::MkObj => object_request(text),
        Verb::Delete => register_name(text).map(|(rs, name)| Request::Delete { rs, name }),
        Verb::Send => two_registers(text).map(|(rp, rv)| Request::Send { rp, rv }),
        Verb::Recv => one_register(text).map(|rd| Request::Recv { rd }),
        Verb::Call => one_register(text).map(|rp| Request::Call { rp }),
        Verb::Path => one_register(text).map(|rs| Request::Path { rs }),
        Verb::Find => register_name(text).map(|(rd, name)| Request::Find { rd, name }),
        Verb::MkCode => code_request(labels, text),
    }
}
