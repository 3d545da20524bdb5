// Document 01's starred cases ('Edges of the rules'): one table, in specs/Table.antt. There is no code here.
#![tactic(auto)]
