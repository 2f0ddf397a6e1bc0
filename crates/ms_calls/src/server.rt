//! What the calls on the server itself make of their arguments, and the call that polls for events.

ghost use Rattle.std.specs.Prelude.{◌≡◌, ℤ, [], ◌∷◌, Result, IfOk};
ghost use Rattle.ms_calls.specs.Arguments.{get_next_notification_call, set_ugi_reply};
ghost use Rattle.ms_calls.specs.Asked.{plain, server_name};

use crate::Asked;
use crate::arguments::{Ask, given, needed};
use crate::slots::One;
use cat_types::{Call, ListOf, NoMemory, Reply, Text, Texts};
use ms_structs::{Got, NotificationRequest};
use std::alloc::Global;

/// The name of the server, as the one text of a list.
pub fn server_name(alloc: Global) -> Result<Texts, NoMemory>
    ensures { IfOk result (λ names. names ≡ server_name ∷ []) }
{
    let Ok(name) = Text::of(alloc, "new db based metaserver") else {
        return Err(NoMemory);
    };
    let mut names = ListOf::new(alloc);
    names.push(name)?;
    Ok(names)
}

/// `set_ugi`: the user and the groups. It is answered the groups, and behind them the user.
pub fn set_ugi(alloc: Global, user: Got<Text>, groups: Got<Texts>) -> Result<Asked, NoMemory>
    ensures { IfOk result (λ asked. asked ≡ plain (set_ugi_reply user groups)) }
{
    match (needed(1, user), given(2, ListOf::new(alloc), groups)) {
        (Ok(user), Ok(mut groups)) => {
            groups.push(user)?;
            Ok(Asked::Plain(Reply::Names(groups)))
        }
        (Err(id), _) | (Ok(_), Err(id)) => Ok(Asked::BadArgument(id)),
    }
}

/// `get_next_notification`: the request.
#[derive(Clone, Copy)]
pub struct GetNextNotification;

impl Ask for GetNextNotification {
    type Slots = One<NotificationRequest>;

    ghost makes = { λ _ slots. get_next_notification_call slots.first };

    fn make(self, slots: One<NotificationRequest>) -> Result<Call, i16> {
        let NotificationRequest { last, max } = needed(1, slots.first)?;
        Ok(Call::GetNextNotification { last, max })
    }
}
