use transcript::{Command, Reply};

/// What answers commands.
pub trait Service {
    ghost use Rattle.transcript.specs.declared.command.Command.{Command};
    ghost use Rattle.transcript.specs.declared.reply.Reply.{Reply};
    ghost use Rattle.std.specs.Prelude.{⊤};

    /// The service before a command, the command, the reply, and the service behind it.
    ghost answers: { Self → Command → Reply → Self → Type 0 };

    /// Of which services an answer may be asked.
    ghost ready: { Self → Type 0 } = { λ _. ⊤ };

    fn answer<R>(&mut self, rt: &R, command: Command) -> Reply
        requires { ready self.old }
        ensures answers { answers self.old command result self.new }
        ensures ready { ready self.new };
}
