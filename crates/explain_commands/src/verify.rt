// The command `verify`.
ghost use Rattle.std.specs.Prelude.{◌≡◌, false, IfOk};
ghost use Rattle.clap.specs.Simple.{app_of};
ghost use Rattle.clap.specs.declared.builder.command.Command.TheViews.{out-Command as fields_of};
ghost use Rattle.explain_commands.specs.Apps.{verify_app};

use crate::operand;
use clap::Command;
use std::alloc::{AllocError, Global};

pub fn command<'a>(alloc: Global) -> Result<Command<'a>, AllocError>
    ensures app { IfOk result (λ command. app_of command ≡ verify_app) }
    ensures local { IfOk result (λ command. (fields_of command).has_globals ≡ false) }
{
    let command = Command::new(alloc, "verify")
        .about(
            "Says whether a certificate holds of a program, and else of which function and meter it does not",
        )
        .after_help(
            "Statuses: 0 where the certificate holds, 1 where it is refused, 2 where the words or a file are faulty, 3 where the analysis can't be made.",
        );
    let with_file = command.arg(operand(
        alloc,
        "file",
        "FILE",
        "The source of a program, of at most 1048576 bytes",
    ))?;
    with_file.arg(operand(
        alloc,
        "certificate",
        "CERT",
        "The certificate of its bounds, as raml certify prints it",
    ))
}
