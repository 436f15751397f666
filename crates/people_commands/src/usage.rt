ghost use Rattle.std.specs.Prelude.{◌≡◌};
ghost use Rattle.people_commands.specs.Endings as ends;
ghost use Rattle.people_commands.specs.HelpTexts as texts;

use outside_io::Failed;
use people_words::HelpTopic;

/// How the program is used.
pub(crate) const HELP: &[u8] =
    b"zorgwint plans link capacities for a network whose demands must be carried, and helps people with the files of it.

  zorgwint plan NET [--model F] [--failures F] [--survive links] [--splits N] [--report] [--quiet]
      a plan for NET: what to buy, loads, failures, and how near to the cheapest it is; with --report the report that planner_top
      checks and view reads, and the first lines of the tables beside it
  zorgwint view NET REPORT [--model F] [--failures F] [--survive links] [--csv links|states|flows | --state NAME] [--svg]
      tables of a report of plans for NET, which is checked first: what to buy, loads, failures, and what is known of the cost;
      with --csv a sheet of comma-separated values, with a row for each link, state or flow; with --state the loads and paths of
      one state, by its name; with --svg a picture of the first plan, in that state
  zorgwint failures NET
      a failure list of each single link that can fail without separating a demand; the others stand in comments
  zorgwint help [COMMAND] | --help | --version
      this text, or how COMMAND alone is used; which version it is

NET is the file of a network in SNDlib's native format, REPORT one that plan --report or planner_top has written, and - is
standard input. --model names a model, --failures a failure list; --survive links stands for a list of each single link, and no
setup is charged without a model. --splits is how often a branch tree splits at most, from 0 to 9999: by default 100 times for up
to 20 nodes, 10 for up to 40, and else 0. --quiet leaves out how far the planning is. Options stand in any place, each once.
After -- no word is an option.

Exit statuses: 0 done, 2 these words are no command, 3 a file isn't there, 4 reading failed, 5 writing failed,
6 the network is refused, 7 the model, 8 the failure list, 10 a demand is separated, 11 the report is wrong,
12 a file is too long, 13 the report can't be read, 14 there is no memory
";

/// How `plan` is used.
pub(crate) const PLAN_HELP: &[u8] =
    b"zorgwint plan NET [--model F] [--failures F] [--survive links] [--splits N] [--report] [--quiet]
    a plan for NET: what to buy, loads, failures, and how near to the cheapest it is

  NET               the file of a network in SNDlib's native format; - is standard input
  --model F         the file of a planning model; without one no setup is charged
  --failures F      the file of a failure list; without one each single link fails where the model asks for survivability, and
                    else none
  --survive links   each single link's failure is survived; no failure list is named beside it
  --splits N        how often a branch tree splits at most, from 0 to 9999: by default 100 times for up to 20 nodes, 10 for up
                    to 40, and else 0
  --report          the report that planner_top checks and view reads, and the first lines of the tables beside it
  --quiet           nothing is said of how far the planning is

Options stand in any place, each once. After -- no word is an option.
";

/// How `view` is used.
pub(crate) const VIEW_HELP: &[u8] =
    b"zorgwint view NET REPORT [--model F] [--failures F] [--survive links] [--csv WHAT | --state NAME] [--svg]
    tables of a report of plans for NET, which is checked first: what to buy, loads, failures, and what is known of the cost

  NET               the file of a network in SNDlib's native format
  REPORT            the file of a report that plan --report or planner_top has written; one of the two files may be -, which is
                    standard input
  --model F         the file of the planning model that the plans are for, if there is one
  --failures F      the file of the failure list that they are for, if there is one
  --survive links   they are for each single link's failure; no failure list is named beside it
  --csv WHAT        a sheet of comma-separated values, with a row for each of WHAT: links, states or flows
  --state NAME      the loads and paths of one state: none, where nothing fails, or a failure by its name
  --svg             a picture of the first plan, in the state that --state names, or else where nothing fails; not with --csv

Options stand in any place, each once. After -- no word is an option.
";

/// How `failures` is used.
pub(crate) const FAILURES_HELP: &[u8] = b"zorgwint failures NET
    a failure list of each single link that can fail without separating a demand; the others stand in comments

  NET   the file of a network in SNDlib's native format; - is standard input

It takes no options. After -- no word is one, so that NET may begin with a minus.
";

/// How `help` is used.
pub(crate) const HELP_HELP: &[u8] = b"zorgwint help [COMMAND]
    what all commands do and take, or how COMMAND alone is used

  COMMAND   plan, view, failures or help

zorgwint --help is help without COMMAND, and zorgwint --version tells which version it is.
";

/// How a command is used.
pub(crate) fn topic_help(topic: HelpTopic) -> &'static [u8]
    ensures { result.now ≡ texts.topic_help topic }
{
    match topic {
        HelpTopic::Plan => PLAN_HELP,
        HelpTopic::View => VIEW_HELP,
        HelpTopic::Failures => FAILURES_HELP,
        HelpTopic::Help => HELP_HELP,
    }
}

/// The program's version.
pub(crate) const VERSION: &[u8] = b"zorgwint 1\n";

/// What is said of words that are no command.
pub(crate) const USAGE: &[u8] = b"these words are no command; zorgwint --help tells which are
usage: zorgwint plan NET [--model F] [--failures F] [--survive links] [--splits N] [--report] [--quiet]
       | view NET REPORT [--model F] [--failures F] [--survive links] [--csv WHAT | --state NAME] [--svg]
       | failures NET | help [COMMAND] | --help | --version
";

/// What is said where memory ran out.
pub(crate) const MEMORY_MESSAGE: &[u8] = b"there is no memory left\n";

/// What is said where writing the text failed.
pub(crate) fn write_message(fault: Failed) -> &'static [u8]
    ensures { result.now ≡ ends.write_message fault }
{
    match fault {
        Failed::DiskFull => b"writing failed: the disk is full\n",
        Failed::Other => b"writing failed\n",
    }
}
