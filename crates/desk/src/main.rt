// desk: daily work with arc files and normal files, by words on the command line; `desk help` names the commands.
#![tactic(auto)]

use desk_lines::Output;

fn main(rt: HostRuntime) {
    let n = desk_files::argument_count(&rt);
    if n > 0 {
        desk_commands::run(&Output::new(&rt), 1, n - 1);
    }
}
