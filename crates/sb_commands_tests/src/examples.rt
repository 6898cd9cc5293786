//! The example in the docs of the commands.
use sb_codec::Ask;
use sb_commands::{AgeQuery, Failure, RowFormat, key_of, prefix_of, print_all, put, value_of};
use sb_types::Slot;
use std::alloc::Global;
use std::process::Abort;

/// Makes the node at a control socket write an address, and prints the rows that it shows under a prefix.
fn set_and_list<'a>(rt: &HostRuntime, control: &'a str) -> Result<(), Failure<'a>> {
    let address = value_of(rt.alloc(), "addr", "10.0.0.1:80")?;
    put(rt, control, key_of("web/addr")?, Slot::Set(address))?;
    let (owner, prefix, after) = (None, prefix_of("web/")?, None);
    let asked = Ask {
        owner,
        prefix,
        after,
    };
    let ages = AgeQuery {
        are_shown: false,
        most: None,
    };
    print_all(rt, control, asked, RowFormat::Text, ages)
}

/// The text of what ended a command. It is empty if nothing did.
fn text_of(rt: &impl Abort, alloc: Global, ended: Result<(), Failure<'_>>) -> String {
    match ended {
        Ok(()) => String::new(alloc),
        Err(failure) => format!(in alloc; "{failure}").expect(rt, "error"),
    }
}

/// Where there is no node, the command ends with the fault, its text and the place.
#[test]
fn example_of_sb_commands(rt: HostRuntime) {
    let text = text_of(&rt, rt.alloc(), set_and_list(&rt, "no.ctl"));
    let begins = "fault 16\nno node could be reached: no such file\ncontrol socket no.ctl: ";
    assert!(rt; text.starts_with(begins), "{text}");
}
