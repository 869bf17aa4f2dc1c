//! Answers of each kind, and how they are written.
ghost use Rattle.std.specs.Prelude.{◌<◌, ◌^◌, length};

use acl_items::Items;
use acl_names::{AuthId, HostText, Ident, UserName};
use acl_stmt::{Full, Missing, Refusal, Target, Why};
use line_answers::{Answer, Denial, LineRefusal, LoginRefusal, report_of, report_text};
use priv_sets::{Plain, Privilege};
use std::alloc::{AllocError, Global};
use std::test::Fail;

fn account(alloc: Global, user: &str) -> Result<AuthId, AllocError>
    requires { length user.now < 2 ^ 32 }
{
    Ok(AuthId {
        user: UserName::read(alloc, user).map_err(|_| AllocError)?,
        host: HostText::read(alloc, "%").map_err(|_| AllocError)?,
    })
}

fn name(alloc: Global, text: &str) -> Result<Ident, AllocError>
    requires { length text.now < 2 ^ 32 }
{
    Ident::read(alloc, text).map_err(|_| AllocError)
}

fn is_written(alloc: Global, answer: &Answer, wanted: &str) -> Result<bool, AllocError> {
    let text = answer.to_string(alloc)?;
    Ok(text.as_str() == wanted)
}

fn denied(target: Target, column: Option<Ident>, why: Why) -> Denial {
    Denial {
        missing: Missing {
            privilege: Privilege::Plain(Plain::new(1)),
            on_target: true,
            column: None,
            why,
        },
        target,
        column,
    }
}

fn refused(refusal: Refusal) -> Answer {
    Answer::Refused(LineRefusal::Statement(refusal))
}

#[test]
fn answers_are_written(rt: HostRuntime) -> Result<(), Fail> {
    let alloc = rt.alloc();
    let answer = Answer::Connected(account(alloc, "we`ird")?);
    assert!(rt; is_written(alloc, &answer, "connected `we``ird`@`%`")?);
    let answer = Answer::Schema(name(alloc, "s`")?);
    assert!(rt; is_written(alloc, &answer, "schema `s```")?);
    assert!(rt; is_written(alloc, &Answer::Bye, "bye")?);
    assert!(rt; is_written(alloc, &Answer::Allowed, "allowed")?);
    assert!(rt; is_written(alloc, &Answer::Done { position: 12 }, "done 12")?);
    let refused = Answer::Refused(LineRefusal::NotConnected);
    assert!(rt; is_written(alloc, &refused, "refused not connected")?);
    let refused = Answer::Refused(LineRefusal::Login(LoginRefusal::NoAccount));
    assert!(rt; is_written(alloc, &refused, "refused no account")?);
    let refused = Answer::Refused(LineRefusal::NoMemory);
    assert!(rt; is_written(alloc, &refused, "refused no memory")?);
    Ok(())
}

#[test]
fn denials_name_their_object(rt: HostRuntime) -> Result<(), Fail> {
    let alloc = rt.alloc();
    let target = Target::Table(name(alloc, "world")?, name(alloc, "city")?);
    let answer = Answer::Denied(denied(target, None, Why::Restricted));
    let wanted = "denied INSERT ON `world`.`city` restricted";
    assert!(rt; is_written(alloc, &answer, wanted)?);
    let target = Target::Function(name(alloc, "s")?, name(alloc, "f")?);
    let answer = Answer::Denied(denied(target, None, Why::NoGrant));
    assert!(rt; is_written(alloc, &answer, "denied INSERT ON FUNCTION `s`.`f`")?);
    let target = Target::Table(name(alloc, "s")?, name(alloc, "t")?);
    let column = Some(name(alloc, "b")?);
    let answer = Answer::Refused(LineRefusal::Denied(denied(target, column, Why::NoGrant)));
    let wanted = "refused denied INSERT (`b`) ON `s`.`t`";
    assert!(rt; is_written(alloc, &answer, wanted)?);
    Ok(())
}

#[test]
fn refusals_name_their_accounts(rt: HostRuntime) -> Result<(), Fail> {
    let alloc = rt.alloc();
    let role = account(alloc, "r")?;
    let answer = refused(Refusal::Loop {
        role,
        account: account(alloc, "a")?,
    });
    assert!(rt; is_written(alloc, &answer, "refused loop `r`@`%` to `a`@`%`")?);
    let account = account(alloc, "u1")?;
    let answer = refused(Refusal::NoSuchGrant { account });
    assert!(rt; is_written(alloc, &answer, "refused no such grant for `u1`@`%`")?);
    let answer = refused(Refusal::Full { what: Full::Pairs });
    assert!(rt; is_written(alloc, &answer, "refused full pairs 262144")?);
    Ok(())
}

#[test]
fn the_length_of_the_history_is_told_last(rt: HostRuntime) -> Result<(), Fail> {
    let alloc = rt.alloc();
    let report = report_of(alloc, Items::new(alloc), Vec::new(alloc), 3)?;
    let text = report_text(alloc, &report)?;
    assert_eq!(rt; text.as_str(), "history 3\n");
    Ok(())
}
