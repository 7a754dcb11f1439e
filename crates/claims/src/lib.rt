// What joins board and tool: the worked examples of document 01, and the agreement of writers and readers. There is no code here.
#![tactic(auto)]
