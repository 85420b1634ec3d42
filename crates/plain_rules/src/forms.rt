//! Whether a command is in form.

ghost use Rattle.std.specs.Prelude.{◌≡◌};
ghost use Rattle.std.specs.List.{list_all};
ghost use Rattle.plain_cat.specs.InForm.{is_text_char, is_dir_name, is_text, is_eighth, is_fid, is_owner, is_quota, is_open_mode, in_form};

use base_words::names::{is_name, is_part};
use plain_cat::{Cmd, Fid, Mode, Name, Uic};

fn is_text_char(c: u8) -> bool
    ensures { result ≡ is_text_char c }
{
    c.is_ascii_uppercase() || c.is_ascii_digit()
}

fn are_text_chars(text: &[u8]) -> bool
    ensures { result ≡ list_all is_text_char text.now }
{
    text.iter().all(|c| is_text_char(*c))
}

fn is_text(text: &Name) -> bool
    ensures { result ≡ is_text text.now }
{
    let text = text.items();
    1 <= text.len() && text.len() <= 16 && are_text_chars(text)
}

fn is_dir_name(name: &Name) -> bool
    ensures { result ≡ is_dir_name name.now }
{
    1 <= name.items().len() && is_part(name.items())
}

fn is_eighth(n: u8) -> bool
    ensures { result ≡ is_eighth n }
{
    1 <= n && n <= 8
}

fn is_fid(fid: Fid) -> bool
    ensures { result ≡ is_fid fid }
{
    fid.num <= 16777215
}

fn is_owner(owner: Uic) -> bool
    ensures { result ≡ is_owner owner }
{
    owner.0 <= 1073741823
}

// Each number of 32 bits is one.
fn is_quota(_n: u32) -> bool
    ensures { result ≡ is_quota _n }
{
    true
}

fn is_open_mode(mode: Mode) -> bool
    ensures { result ≡ is_open_mode mode }
{
    match mode {
        Mode::NL => false,
        Mode::CR | Mode::CW | Mode::PR | Mode::PW | Mode::EX => true,
    }
}

/// Whether a command is in form: its numbers, names, text, mode and owner are within their limits.
#[tactic(auto, unfolding(plain_cat::specs::InForm::in_form))]
pub fn is_in_form(cmd: &Cmd) -> bool
    ensures { result ≡ in_form cmd.now }
{
    match cmd {
        Cmd::Lookup {
            reg,
            dir,
            name,
            ver,
        } => is_eighth(*reg) && is_fid(*dir) && is_name(name.items()) && *ver <= 32767,
        Cmd::List { dir } => is_fid(*dir),
        Cmd::Stat { file } => is_fid(*file),
        Cmd::Create {
            reg,
            dir,
            name,
            ver,
            blocks,
            owner,
        } => {
            is_eighth(*reg)
                && is_fid(*dir)
                && is_name(name.items())
                && *ver <= 32767
                && *blocks <= 65536
                && is_owner(*owner)
        }
        Cmd::MkDir {
            reg,
            dir,
            name,
            owner,
        } => is_eighth(*reg) && is_fid(*dir) && is_dir_name(name) && is_owner(*owner),
        Cmd::Extend { file, blocks } => is_fid(*file) && 1 <= *blocks && *blocks <= 65536,
        Cmd::Trunc { file, blocks } => is_fid(*file) && *blocks <= 65536,
        Cmd::Delete { dir, name, ver } => is_fid(*dir) && is_name(name.items()) && *ver <= 32767,
        Cmd::Rename {
            dir,
            name,
            ver,
            to,
            to_ver,
        } => {
            is_fid(*dir)
                && is_name(name.items())
                && *ver <= 32767
                && is_name(to.items())
                && *to_ver <= 32767
        }
        Cmd::OpenFile { chan, file, mode } => is_eighth(*chan)
            && is_fid(*file)
            && is_open_mode(*mode),
        Cmd::CloseFile { chan } => is_eighth(*chan),
        Cmd::ReadBlock { chan, vbn } => is_eighth(*chan) && *vbn <= 65536,
        Cmd::WriteBlock { chan, vbn, text } => is_eighth(*chan) && *vbn <= 65536 && is_text(text),
        Cmd::QuotaSet { owner, quota, over } => is_owner(*owner)
            && is_quota(*quota)
            && is_quota(*over),
        Cmd::QuotaShow { owner } => is_owner(*owner),
    }
}
