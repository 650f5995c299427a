//! What the bytes of a stream tell: one list of commands, or one of returns.

ghost use Rattle.std.specs.{Prelude.{◌≡◌, List, map}, List.{All, concat}};
ghost use Rattle.bd_uapi.specs.{declared.command.Command.{Command}, declared.command.Return.{Return}};
ghost use Rattle.bd_codec.specs.Spelling.{command_bytes, return_bytes, IsCommand, IsReturn};

/// Two streams of commands with the same bytes have the same commands, in the same order.
pub fn bytes_tell_the_commands()
    ensures { (cs ds : List Command) → All IsCommand cs → All IsCommand ds
        → concat (map command_bytes cs) ≡ concat (map command_bytes ds) → cs ≡ ds }
{}

/// Two streams of returns with the same bytes have the same returns, in the same order.
pub fn bytes_tell_the_returns()
    ensures { (rs ss : List Return) → All IsReturn rs → All IsReturn ss
        → concat (map return_bytes rs) ≡ concat (map return_bytes ss) → rs ≡ ss }
{}
