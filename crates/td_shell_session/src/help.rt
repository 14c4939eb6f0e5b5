//! The commands, for `.help`.

/// What can be typed.
pub const HELP: &str = "\
A text that ends in ; is a statement, and else a query. It may go on over lines:
a statement up to the line that ends in ;, a query until its brackets are closed,
and what begins with IF until each IF has its END IF. An empty line ends it too.

  .tables            the relvars: how many tuples, kind, heading
  .schema [NAME]     the definitions, or that of a name
  .listing           each relvar with its tuples, and the refused statements
  .log               each statement with what became of it
  .refused [here]    the statements that have no effect; those issued here alone
  .vector            up to which number each site's statements are here
  .digest [SITE N]   what is held in a few digits, to compare with another site's
  .at CLOCK.SITE Q   asks a query as it was just after that statement
  .import FILE R     inserts the rows of a CSV file, whose first line names the columns
  .read FILE         reads lines from a file as if they were typed
  .dump FILE         writes a script that makes this site again, statement by statement
  .dump --tables FILE  writes one that makes its tables again, without the history
  .export FOLDER     writes a CSV file for each base relvar
  .serve ADDRESS     waits at an address for another site, and meets it
  .call ADDRESS      meets the site that serves at an address (as 127.0.0.1:7001);
                     .call --plain ADDRESS meets a program that compares no digests
  .alarms            the sites whose statements differ at a site that was met;
                     .alarms acknowledge SITE ends those of a site
  .compare ADDRESS SITE  the first statement of a site that differs here and there
  .mode WORD         shows relations as a table, as csv or as a literal
  .timer on|off      tells how long each answer takes
  .help              this page
  .quit              ends the program; so does Ctrl-C, and nothing answered is lost
                     where the site keeps a journal
";
