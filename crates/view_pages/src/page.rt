// The parts of a page that are the same on each.

/// What stands before the heading. The page asks for nothing from anywhere, and says so to the browser.
pub const HEAD: &str = "<!DOCTYPE html>
<html lang=\"en\">
<head>
<meta charset=\"utf-8\">
<meta http-equiv=\"Content-Security-Policy\" content=\"default-src 'none'; style-src 'unsafe-inline'\">
<title>witval-view</title>
<style>
body { font-family: sans-serif; margin: 1.5em; }
pre, td { font-family: monospace; font-size: 13px; white-space: pre-wrap; }
pre { border-left: 4px solid; padding-left: 0.8em; }
table { border-collapse: collapse; }
td { vertical-align: top; padding: 0 0.6em; }
tr td:nth-child(1), tr td:nth-child(2) { text-align: right; border-right: 1px solid; white-space: nowrap; }
tr.told td { font-weight: bold; border-top: 1px solid; }
tr.note td:nth-child(3) { font-family: sans-serif; font-style: italic; padding: 0.2em 0.6em 0.2em 2.6em; }
tr:target { outline: 2px solid; }
ul li { margin-bottom: 0.4em; }
</style>
</head>
<body>
";

/// What stands before the reply.
pub const REPLY: &str = "<h1>Verdict</h1>\n<pre>";

/// What stands before the judgements of a list.
pub const LIST: &str = "<h1>Verdicts</h1>
<table>
<tr><td>line</td><td>status</td><td>files</td><td>reply</td><td>errors and warnings</td></tr>
";

/// What stands after the files, or after the table of a list.
pub const TAIL: &str = "</body>\n</html>\n";
